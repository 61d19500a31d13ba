//! Commands of the program with each allocation failing in turn.
use crate::sweeps::{Written, lines_in};
use kit_alloc::{Failing, sweep, sweep_onward};
use kit_streams::FILE;
use part_plain::PlainPart;
use std::alloc::Global;
use std::sync::Wait;
use std::thread::Threads;
use term_text::Form;
use tool_cli::{Request, Told, run_request};

/// Returns whether the output on standard error is the error line for out of memory, or nothing.
fn tells_no_memory(err: &[u8]) -> bool {
    err.is_empty() || err == b"error E1\n".as_slice()
}

/// Returns whether the output is empty or ends with a line feed.
fn ends_a_line(written: &[u8]) -> bool {
    match written.last() {
        Some(byte) => *byte == b'\n',
        None => true,
    }
}

/// When the lines of a command are written if memory runs out.
#[derive(Clone, Copy)]
enum Ends {
    /// Not before the last has been put together.
    AtOnce,
    /// Those that were put together; the last allocation is one for the last line.
    LineByLine,
    /// Those on the objects before, if memory runs out for an answer, and none if it runs out for the text. `exact`
    /// counts them.
    ByObject,
    /// None, since the text is rejected. But if there is no memory for an answer, nor for the rest of the text whose
    /// fault would be reported, those on the objects before: the first of these lines.
    Rejected(&'static str),
}

/// A command over an input, and its result when memory is available.
#[derive(Clone, Copy)]
struct Case {
    request: Request,
    input: &'static str,
    lines: &'static str,
    ends: Ends,
    line: &'static str,
    status: u8,
}

impl Case {
    /// Returns whether the command has its result with memory that may run out, or ends with out of memory after the
    /// first of these lines, no fewer than in the run before.
    fn is_right<H: Threads + Wait + Sync>(
        self,
        rt: &H,
        alloc: Global,
        heap: &Failing<Global>,
        lines: &str,
        so_far: &mut Written,
    ) -> bool {
        let mut reader = self.input.as_bytes();
        let mut out = Vec::new(alloc);
        let mut err = Told::new(Vec::new(alloc));
        let ended = run_request::<H, PlainPart<&Failing<Global>>, _, _, _, _>(
            rt,
            heap,
            self.request,
            &mut reader,
            &mut out,
            &mut err,
        );
        let told = err.writer;
        if ended != 3 {
            return out.as_slice() == self.lines.as_bytes()
                && self.is_told(told.as_slice(), heap)
                && ended == self.status;
        }
        heap.was_refused()
            && (so_far.goes_on(out.as_slice()) || self.goes_by_objects())
            && lines.as_bytes().starts_with(out.as_slice())
            && ends_a_line(out.as_slice())
            && tells_no_memory(told.as_slice())
    }

    /// Returns whether this is the command's error line, or nothing since memory ran out for the line.
    fn is_told(self, told: &[u8], heap: &Failing<Global>) -> bool {
        told == self.line.as_bytes() || told.is_empty() && heap.was_refused()
    }

    /// Returns whether the lines depend on what memory ran out for: an answer, or the text.
    fn goes_by_objects(self) -> bool {
        match self.ends {
            Ends::ByObject | Ends::Rejected(_) => true,
            Ends::AtOnce | Ends::LineByLine => false,
        }
    }

    /// Returns the lines of which the first may be written if an allocation fails and all later ones.
    fn lines_onward(self) -> &'static str {
        match self.ends {
            Ends::Rejected(lines) => lines,
            Ends::AtOnce | Ends::LineByLine | Ends::ByObject => self.lines,
        }
    }

    /// Returns whether the command wrote as many lines as it should when its last allocation failed.
    fn is_last(self, written: usize) -> bool {
        match self.ends {
            Ends::AtOnce => written == 0,
            Ends::LineByLine => written == lines_in(self.lines.as_bytes()).saturating_sub(1),
            Ends::ByObject | Ends::Rejected(_) => true,
        }
    }

    /// Returns whether `is_right` is true with each allocation failing in turn, alone and together with all later ones,
    /// and the command writes as many lines as it should if the last one fails.
    fn holds<H: Threads + Wait + Sync>(self, rt: &H, alloc: Global) -> bool {
        let mut so_far = Written { lines: 0 };
        let alone = sweep(alloc, 4_000, |heap| {
            self.is_right(rt, alloc, heap, self.lines, &mut so_far) && heap.blocks() == 0
        });
        let mut so_far_onward = Written { lines: 0 };
        let onward = sweep_onward(alloc, 4_000, |heap| {
            self.is_right(rt, alloc, heap, self.lines_onward(), &mut so_far_onward)
                && heap.blocks() == 0
        });
        alone.is_complete()
            && self.is_last(so_far.lines)
            && onward.is_complete()
            && self.is_last(so_far_onward.lines)
    }
}

/// Returns the index of the first of these cases that is not right.
fn first_wrong<H: Threads + Wait + Sync>(rt: &H, alloc: Global, cases: &[Case]) -> Option<usize> {
    for (place, case) in cases.iter().enumerate() {
        if !case.holds(rt, alloc) {
            return Some(place);
        }
    }
    None
}

/// A specification and three objects; each answer is a term that has to be made.
const MADE: &str = "[{{'$1'},[],[{{'$1',[]}}]}]. {1}. {[2]}. {\"3\"}.";

/// The lines of its answers.
const MADE_LINES: &str = "{1,[]}.\n{[2],[]}.\n{[51],[]}.\n";

/// A specification and three objects for `test`, of which each answer needs memory.
const TESTED: &str =
    "[{{'$1'},[{is_list,'$1'}],[{{{hd,'$1'},['$$'|'$_'],#{k=>'$1'}}}]}]. {1}. {[2]}. {[3]}.";

/// The lines of its outcomes.
const TESTED_LINES: &str =
    "false.\n{ok,{2,[[[2]]|{[2]}],#{k=>[2]}}}.\n{ok,{3,[[[3]]|{[3]}],#{k=>[3]}}}.\n";

/// A condition and a variable, which make no term, and two objects.
const PAIRS: &str = "[{{'$1','$2'},[{'>','$1',1}],['$2']}]. {1,a}. {2,b}.";

/// Queries: four that succeed, one whose specification is rejected, and two whose text does not end: after objects that
/// are answered, and after a first term that is no query.
const QUERIES: [Case; 7] = [
    Case {
        request: Request::Run(Form::Canonical),
        input: PAIRS,
        lines: "b.\n",
        ends: Ends::ByObject,
        line: "",
        status: 0,
    },
    Case {
        request: Request::Test(Form::Canonical),
        input: PAIRS,
        lines: "false.\n{ok,b}.\n",
        ends: Ends::ByObject,
        line: "",
        status: 0,
    },
    Case {
        request: Request::Run(Form::Canonical),
        input: MADE,
        lines: MADE_LINES,
        ends: Ends::ByObject,
        line: "",
        status: 0,
    },
    Case {
        request: Request::Test(Form::Canonical),
        input: TESTED,
        lines: TESTED_LINES,
        ends: Ends::ByObject,
        line: "",
        status: 0,
    },
    Case {
        request: Request::Run(Form::Canonical),
        input: "[{{'$1'},[],['$3']}]. {1}.",
        lines: "",
        ends: Ends::ByObject,
        line: "error E16 0 3\n",
        status: 2,
    },
    Case {
        request: Request::Run(Form::Canonical),
        input: "[{{'$1'},[],[{{'$1',[]}}]}]. {1}. {[2]}. {\"3\"",
        lines: "",
        ends: Ends::Rejected("{1,[]}.\n{[2],[]}.\n"),
        line: "error E5 45\n",
        status: 2,
    },
    Case {
        request: Request::Run(Form::Canonical),
        input: "[{{'$1'},[],['$3']}]. {1}. {[2]}. {\"3\"",
        lines: "",
        ends: Ends::ByObject,
        line: "error E5 38\n",
        status: 2,
    },
];

/// Returns the index of the first of these queries that is not right.
fn wrong_query<H: Threads + Wait + Sync>(rt: &H, alloc: Global) -> Option<usize> {
    first_wrong(rt, alloc, &QUERIES)
}

#[test]
fn each_request_of_a_query_refused_in_turn(rt: HostRuntime) {
    let wrong = wrong_query(&rt, rt.alloc());
    assert!(rt; wrong == None, "{wrong:?}");
}

/// Code files: one is written, one verified, and one run.
const FILES: [Case; 3] = [
    Case {
        request: Request::Compile,
        input: "[{'_',[],[true]}].",
        lines: FILE,
        ends: Ends::LineByLine,
        line: "",
        status: 0,
    },
    Case {
        request: Request::Verify,
        input: FILE,
        lines: "{ok,2,1}.\n",
        ends: Ends::LineByLine,
        line: "",
        status: 0,
    },
    Case {
        request: Request::Run(Form::Canonical),
        input: "<<69,77,83,67,0,1,0,0,0,1,2,0,4,116,114,117,101,0,3,2,0,0,24,25,0,1,0,2,0,0,0,0,0,0>>. a.",
        lines: "true.\n",
        ends: Ends::ByObject,
        line: "",
        status: 0,
    },
];

/// Returns the index of the first of these commands over code files that is not right.
fn wrong_file<H: Threads + Wait + Sync>(rt: &H, alloc: Global) -> Option<usize> {
    first_wrong(rt, alloc, &FILES)
}

#[test]
fn each_request_over_code_files_refused_in_turn(rt: HostRuntime) {
    let wrong = wrong_file(&rt, rt.alloc());
    assert!(rt; wrong == None, "{wrong:?}");
}

/// A specification that names a key, with a constant and a call.
const EXPLAINED: &str = "[{{k,'$7'},[{'<','$7',{const,[a]}}],[{{'$7'}}]}].";

/// The lines of its explanation.
const EXPLAINED_LINES: &str = "\
walk at keypos 1: 1 looked up: k
instructions of a run at most 19, stack at most 3
    0  load
    1  tuple       2                 else 20
    2  dup
    3  field       1
    4  const       k
    5  equal                         else 20
    6  dup
    7  field       2
    8  bind        $7
    9  drop
   10  get         $7
   11  const       [a]
   12  call        </2               else 20
   13  bool                          else 20
   14  branch                        else 20
   15  get         $7
   16  make_tuple  1                 else 18
   17  jump        19
   18  const       'EXIT'
   19  answer
   20  no_answer
";

/// The explanation of a file.
const FILE_LINES: &str = "\
walk at keypos 3: all objects
instructions of a run at most 2, stack at most 1
    0  const       true
    1  answer
    2  no_answer
";

/// Explanations of the specification and of the file.
const EXPLANATIONS: [Case; 2] = [
    Case {
        request: Request::Explain(1),
        input: EXPLAINED,
        lines: EXPLAINED_LINES,
        ends: Ends::AtOnce,
        line: "",
        status: 0,
    },
    Case {
        request: Request::Explain(3),
        input: FILE,
        lines: FILE_LINES,
        ends: Ends::AtOnce,
        line: "",
        status: 0,
    },
];

/// Returns the index of the first of these explanations that is not right.
fn wrong_explanation<H: Threads + Wait + Sync>(rt: &H, alloc: Global) -> Option<usize> {
    first_wrong(rt, alloc, &EXPLANATIONS)
}

#[test]
fn each_request_of_an_explanation_refused_in_turn(rt: HostRuntime) {
    let wrong = wrong_explanation(&rt, rt.alloc());
    assert!(rt; wrong == None, "{wrong:?}");
}

/// Commands of every kind on a set.
const SET_SCRIPT: &str =
    "{open,set,1,1,2}. {insert,0,{1,[a]}}. {insert_new,1,{2,\"b\"}}. {insert_new,0,{2,c}}. {insert,0,a}. {lookup,0,1}. {member,1,2}.
{fix,0}. {fix,1}. {delete,0,1}. {first,0}. {next,1,1}. {insert,1,{1,z}}. {unfix,0}. {leave,1}. {take,0,[3]}. {take,0,2}.
{delete_object,0,{1,z}}. {insert,0,{[k|v],#{a=>{}}}}. {next,0,[k|v]}. {lookup,1,1}. nothing. {unfix,0}. {insert,0,{<<1>>,9}}. {close}.
{open,bag,0,1,1}. {open,ordered_set,1,1,1}. {insert,0,{1,a}}. {close}.";

/// Commands of every kind on an ordered set.
const ORDERED_SET_SCRIPT: &str =
    "{open,ordered_set,1,1,2}. {insert,0,{1,[a]}}. {insert_new,1,{2,\"b\"}}. {insert_new,0,{2,c}}. {insert,0,a}. {lookup,0,1}. {member,1,2}.
{fix,0}. {fix,1}. {delete,0,1}. {first,0}. {next,1,1}. {insert,1,{1,z}}. {unfix,0}. {leave,1}. {take,0,[3]}. {take,0,2}.
{delete_object,0,{1,z}}. {insert,0,{[k|v],#{a=>{}}}}. {next,0,[k|v]}. {lookup,1,1}. nothing. {unfix,0}. {insert,0,{<<1>>,9}}. {close}.
{open,bag,0,1,1}. {open,ordered_set,1,1,1}. {insert,0,{1,a}}. {close}.";

/// The replies to both scripts.
const SCRIPT_LINES: &str = "\
true.
true.
true.
false.
{error,50}.
[{1,[a]}].
true.
true.
true.
true.
2.
2.
true.
true.
true.
[].
[{2,[98]}].
true.
true.
'$end_of_table'.
{error,61}.
{error,65}.
{error,52}.
true.
[{[k|v],#{a=>{}}},{<<1>>,9}].
{error,60}.
true.
true.
[{1,a}].
";

/// Commands on a bag. There are a second and a fifth object of a key, slots that double, a key of which some objects
/// are deleted, a key that is named, and pieces that end between two objects of a key.
const BAG_SCRIPT: &str =
    "{open,bag,1,1,2}. {insert,0,{1,a}}. {insert,0,{1,b}}. {insert,1,{1,a}}. {insert,0,{1,[c]}}. {insert,0,{1,d}}. {insert,0,{1,e}}.
{insert,0,{9,a}}. {insert_new,0,{9,b}}. {lookup,1,1}. {delete_object,0,{1,b}}. {fix,1}. {select,1,[{{1,'$1'},[],['$1']}],3}. {delete,0,1}.
{more,1,0}. {more,1,1}. {insert,0,{1,[f]}}. {insert,0,{1,g}}. {unfix,1}. {select_count,0,[{{'_',a},[],[true]}]}.
{select,0,[{'_',[],[['$_']]}],2}. {more,0,2}. {select,0,[{'_',[],[['$_']]}]}. {select_delete,0,[{{1,g},[],[true]},{{9,'_'},[],[false]}]}. {take,0,1}. {close}.";

/// The replies to the commands on a bag.
const BAG_LINES: &str = "\
true.
true.
true.
true.
true.
true.
true.
true.
false.
[{1,a},{1,b},{1,[c]},{1,d},{1,e}].
true.
true.
{[a,[c],d],0}.
true.
{[e],1}.
'$end_of_table'.
true.
true.
true.
1.
{[[{1,[f]}],[{1,g}]],2}.
{[[{9,a}]],3}.
[[{1,[f]}],[{1,g}],[{9,a}]].
1.
[{1,[f]}].
[{9,a}].
";

/// Lines of a shell. Of its commands two share a line, one goes on in the next line, one is rejected with what follows
/// it in its line, one is given up, and one follows a comment.
const SHELL: &str =
    "{open,set,1,1,1}.\n{insert,0,{1,[a]}}. {insert,0,\n{1,[b]}}.\n{lookup 0,1}. {close}.\n{lookup,0,\n\n% all.\n{close}.";

/// The replies to these lines.
const SHELL_LINES: &str = "\
true.
true.
true.
{error,5,8}.
{error,5,11}.
[{1,[b]}].
";

/// Shells.
const SHELLS: [Case; 2] = [
    Case {
        request: Request::Shell,
        input: SHELL,
        lines: SHELL_LINES,
        ends: Ends::LineByLine,
        line: "",
        status: 0,
    },
    Case {
        request: Request::Shell,
        input: BAG_SCRIPT,
        lines: BAG_LINES,
        ends: Ends::LineByLine,
        line: "",
        status: 0,
    },
];

/// Returns the index of the first of these shells that is not right.
fn wrong_shell<H: Threads + Wait + Sync>(rt: &H, alloc: Global) -> Option<usize> {
    first_wrong(rt, alloc, &SHELLS)
}

#[test]
fn each_request_of_a_shell_refused_in_turn(rt: HostRuntime) {
    let wrong = wrong_shell(&rt, rt.alloc());
    assert!(rt; wrong == None, "{wrong:?}");
}

/// Scripts.
const SCRIPTS: [Case; 3] = [
    Case {
        request: Request::Script,
        input: SET_SCRIPT,
        lines: SCRIPT_LINES,
        ends: Ends::LineByLine,
        line: "",
        status: 0,
    },
    Case {
        request: Request::Script,
        input: ORDERED_SET_SCRIPT,
        lines: SCRIPT_LINES,
        ends: Ends::LineByLine,
        line: "",
        status: 0,
    },
    Case {
        request: Request::Script,
        input: BAG_SCRIPT,
        lines: BAG_LINES,
        ends: Ends::LineByLine,
        line: "",
        status: 0,
    },
];

/// Returns the index of the first of these scripts that is not right.
fn wrong_script<H: Threads + Wait + Sync>(rt: &H, alloc: Global) -> Option<usize> {
    first_wrong(rt, alloc, &SCRIPTS)
}

#[test]
fn each_request_of_a_script_refused_in_turn(rt: HostRuntime) {
    let wrong = wrong_script(&rt, rt.alloc());
    assert!(rt; wrong == None, "{wrong:?}");
}
