//! How many lines are written exactly if memory runs out: those of all replies, answers or outcomes before the one that
//! needed it. Which request belongs to which of them is counted in runs over the beginnings of the input.
use crate::sweeps::lines_in;
use kit_alloc::{Failing, Plan, sweep, sweep_onward};
use part_plain::PlainPart;
use std::alloc::Global;
use std::sync::Wait;
use std::thread::Threads;
use term_text::{Form, read_terms};
use tool_cli::{Request, Told, run_request};
use tool_io::{put_line, read_script};
use tool_scan::{ScanKind, ScanOptions};

/// The exit status of a command that ran out of memory.
const OUT_OF_MEMORY: u8 = 3;
/// How many runs a sweep has at most.
const MOST_RUNS: u64 = 8_000;

/// Commands on a set and on a bag, one a line: each is replied to.
const COMMANDS: &[u8] = b"{open,set,1,1,2}.
{insert,0,{1,[a]}}.
{insert,1,{2,\"b\"}}.
{insert,0,{3,#{k=>v}}}.
{lookup,0,1}.
{select,0,[{{'$1','_'},[],[{{'$1',[]}}]}],1}.
{member,1,2}.
{more,0,0}.
nothing.
{take,0,2}.
{select_count,0,[{'_',[],[true]}]}.
{close}.
{open,bag,1,1,1}.
{insert,0,{1,a}}.
{insert,0,{1,b}}.
{lookup,0,1}.
{close}.
";

/// The replies to these commands.
const REPLIES: &[u8] = b"true.
true.
true.
true.
[{1,[a]}].
{[{1,[]}],0}.
true.
{[{2,[]}],1}.
{error,65}.
[{2,[98]}].
2.
[{1,[a]},{3,#{k=>v}}].
true.
true.
true.
[{1,a},{1,b}].
[{1,a},{1,b}].
";

/// A specification and objects, one a line: each answer has to be made.
const OBJECTS: &[u8] = b"[{{'$1'},[],[{{'$1',[]}}]}].
{1}.
{[2]}.
{<<3>>}.
{{a,b,c,d,e,f,g}}.
{#{k=>[v]}}.
";

/// The answers on these objects.
const ANSWERS: &[u8] = b"{1,[]}.
{[2],[]}.
{<<3>>,[]}.
{{a,b,c,d,e,f,g},[]}.
{#{k=>[v]},[]}.
";

/// The outcomes of these objects.
const OUTCOMES: &[u8] = b"{ok,{1,[]}}.
{ok,{[2],[]}}.
{ok,{<<3>>,[]}}.
{ok,{{a,b,c,d,e,f,g},[]}}.
{ok,{#{k=>[v]},[]}}.
";

/// Returns the first lines of an input.
fn first_lines(input: &[u8], count: usize) -> &[u8] {
    let mut ended: usize = 0;
    for end in 0..input.len() {
        if ended == count {
            return &input[..end];
        }
        if input[end] == b'\n' {
            ended = ended.saturating_add(1);
        }
    }
    input
}

/// Runs a command over an input, and returns its exit status and its output.
fn run_over<H: Threads + Wait + Sync>(
    rt: &H,
    alloc: Global,
    heap: &Failing<Global>,
    request: Request,
    input: &[u8],
) -> (u8, Vec<u8>) {
    let mut reader = input;
    let mut out = Vec::new(alloc);
    let mut err = Told::new(Vec::new(alloc));
    let status = run_request::<H, PlainPart<&Failing<Global>>, _, _, _, _>(
        rt,
        heap,
        request,
        &mut reader,
        &mut out,
        &mut err,
    );
    (status, out)
}

/// Returns how many requests for memory a command makes over an input.
fn requests_over<H: Threads + Wait + Sync>(
    rt: &H,
    alloc: Global,
    request: Request,
    input: &[u8],
) -> u64 {
    let heap = Failing::counting(alloc);
    let (_status, _out) = run_over(rt, alloc, &heap, request, input);
    heap.requests()
}

/// Returns how many requests are made to read a script.
fn requests_to_read(alloc: Global, input: &[u8]) -> u64 {
    let heap = Failing::counting(alloc);
    let mut reader = input;
    let terms = read_script(&heap, &mut reader);
    drop(terms);
    heap.requests()
}

/// Returns, for each line of a command's output, how many requests it makes until the line is put together. Each line of
/// the input after the first `skipped` ones has one.
fn ends_of<H: Threads + Wait + Sync>(
    rt: &H,
    alloc: Global,
    request: Request,
    input: &[u8],
    skipped: usize,
) -> Option<Vec<u64>> {
    let mut ends = Vec::new(alloc);
    for count in skipped..lines_in(input) {
        let requests = requests_over(
            rt,
            alloc,
            request,
            first_lines(input, count.saturating_add(1)),
        );
        ends.push(requests).ok()?;
    }
    Some(ends)
}

/// Returns as `ends_of` does for a script, which is read whole before its first command is obeyed.
fn ends_of_script<H: Threads + Wait + Sync>(
    rt: &H,
    alloc: Global,
    input: &[u8],
) -> Option<Vec<u64>> {
    let reading = requests_to_read(alloc, input);
    let mut ends = Vec::new(alloc);
    for count in 0..lines_in(input) {
        let first = first_lines(input, count.saturating_add(1));
        let requests = requests_over(rt, alloc, Request::Script, first);
        let obeying = requests.saturating_sub(requests_to_read(alloc, first));
        ends.push(reading.saturating_add(obeying)).ok()?;
    }
    Some(ends)
}

/// Returns how many lines were put together before this request.
fn lines_before(ends: &[u64], request: u64) -> usize {
    let mut lines: usize = 0;
    for end in ends {
        if *end < request {
            lines = lines.saturating_add(1);
        }
    }
    lines
}

/// Returns the number of the request that a plan refuses first.
fn refused_by(plan: Plan) -> u64 {
    match plan {
        Plan::Once(request) | Plan::From(request) => request,
        Plan::Never => 0,
    }
}

/// Returns whether a command writes all lines, or, if memory runs out, exactly those before the refused request.
fn is_exact<H: Threads + Wait + Sync>(
    rt: &H,
    alloc: Global,
    heap: &Failing<Global>,
    request: Request,
    input: &[u8],
    lines: &[u8],
    ends: &[u64],
) -> bool {
    let (status, out) = run_over(rt, alloc, heap, request, input);
    if status != OUT_OF_MEMORY {
        return status == 0 && out.as_slice() == lines;
    }
    out.as_slice() == first_lines(lines, lines_before(ends, refused_by(heap.plan())))
}

/// Returns whether `is_exact` is true with each request refused in turn, alone and together with all later ones.
fn are_exact<H: Threads + Wait + Sync>(
    rt: &H,
    alloc: Global,
    request: Request,
    input: &[u8],
    lines: &[u8],
    ends: &[u64],
) -> bool {
    let alone = sweep(alloc, MOST_RUNS, |heap| {
        is_exact(rt, alloc, heap, request, input, lines, ends) && heap.blocks() == 0
    });
    let onward = sweep_onward(alloc, MOST_RUNS, |heap| {
        is_exact(rt, alloc, heap, request, input, lines, ends) && heap.blocks() == 0
    });
    alone.is_complete() && onward.is_complete()
}

/// Commands and their replies, one a line.
struct Script {
    commands: &'static [u8],
    replies: &'static [u8],
}

/// The commands above; and walks in pieces while rows come and go: of a fixed set with rows of several slots and of one,
/// of an ordered set, and of a fixed set whose slots double.
const SCRIPTS: [Script; 5] = [
    Script {
        commands: COMMANDS,
        replies: REPLIES,
    },
    Script {
        commands: b"{open,set,1,1,2}.
{insert,0,{1}}.
{insert,0,{2}}.
{insert,0,{3}}.
{insert,0,{4}}.
{insert,0,{5}}.
{fix,0}.
{select,0,[{{'$1'},[],['$1']}],2}.
{delete,1,3}.
{insert,1,{9}}.
{insert,1,{6}}.
{more,0,0}.
{more,0,1}.
{more,0,2}.
{more,0,2}.
",
        replies: b"true.
true.
true.
true.
true.
true.
true.
{[1,2],0}.
true.
true.
true.
{[4,5],1}.
{[6],2}.
'$end_of_table'.
{error,62}.
",
    },
    Script {
        commands: b"{open,set,1,1,2}.
{insert,0,{1}}.
{insert,0,{9}}.
{insert,0,{17}}.
{fix,0}.
{select,0,[{{'$1'},[],['$1']}],2}.
{delete,1,17}.
{more,0,0}.
{more,0,1}.
",
        replies: b"true.
true.
true.
true.
true.
{[1,9],0}.
true.
{[17],1}.
'$end_of_table'.
",
    },
    Script {
        commands: b"{open,ordered_set,1,1,1}.
{insert,0,{10}}.
{insert,0,{20}}.
{insert,0,{30}}.
{select,0,[{{'$1'},[],['$1']}],1}.
{delete,0,10}.
{delete,0,20}.
{insert,0,{25}}.
{more,0,0}.
{more,0,1}.
{more,0,2}.
",
        replies: b"true.
true.
true.
true.
{[10],0}.
true.
true.
true.
{[25],1}.
{[30],2}.
'$end_of_table'.
",
    },
    Script {
        commands: b"{open,set,1,1,2}.
{insert,0,{0}}.
{insert,0,{1}}.
{insert,0,{2}}.
{insert,0,{3}}.
{insert,0,{4}}.
{insert,0,{5}}.
{insert,0,{6}}.
{insert,0,{7}}.
{insert,0,{8}}.
{insert,0,{9}}.
{insert,0,{10}}.
{insert,0,{11}}.
{insert,0,{12}}.
{insert,0,{13}}.
{insert,0,{14}}.
{insert,0,{15}}.
{insert,0,{16}}.
{insert,0,{17}}.
{insert,0,{18}}.
{insert,0,{19}}.
{insert,0,{20}}.
{insert,0,{21}}.
{insert,0,{22}}.
{insert,0,{23}}.
{insert,0,{24}}.
{insert,0,{25}}.
{insert,0,{26}}.
{insert,0,{27}}.
{insert,0,{28}}.
{insert,0,{29}}.
{insert,0,{30}}.
{insert,0,{31}}.
{fix,0}.
{select,0,[{{'$1'},[],['$1']}],4}.
{insert,1,{32}}.
{more,0,0}.
{next,0,0}.
{unfix,0}.
{next,0,0}.
",
        replies: b"true.
true.
true.
true.
true.
true.
true.
true.
true.
true.
true.
true.
true.
true.
true.
true.
true.
true.
true.
true.
true.
true.
true.
true.
true.
true.
true.
true.
true.
true.
true.
true.
true.
true.
{[0,8,16,24],0}.
true.
{[1,9,17,25],1}.
8.
true.
16.
",
    },
];

/// Returns whether a script keeps all replies before the command that was refused memory.
fn is_script_exact<H: Threads + Wait + Sync>(rt: &H, alloc: Global, script: &Script) -> bool {
    let Some(ends) = ends_of_script(rt, alloc, script.commands) else {
        return false;
    };
    are_exact(
        rt,
        alloc,
        Request::Script,
        script.commands,
        script.replies,
        ends.as_slice(),
    )
}

/// Returns the index of the first script that does not.
fn wrong_script<H: Threads + Wait + Sync>(rt: &H, alloc: Global) -> Option<usize> {
    for (place, script) in SCRIPTS.iter().enumerate() {
        if !is_script_exact(rt, alloc, script) {
            return Some(place);
        }
    }
    None
}

#[test]
fn a_script_keeps_all_replies_before(rt: HostRuntime) {
    let wrong = wrong_script(&rt, rt.alloc());
    assert!(rt; wrong == None, "{wrong:?}");
}

/// Returns whether a shell keeps all replies before the command that was refused memory.
fn shell_is_exact<H: Threads + Wait + Sync>(rt: &H, alloc: Global) -> bool {
    let Some(ends) = ends_of(rt, alloc, Request::Shell, COMMANDS, 0) else {
        return false;
    };
    are_exact(
        rt,
        alloc,
        Request::Shell,
        COMMANDS,
        REPLIES,
        ends.as_slice(),
    )
}

#[test]
fn a_shell_keeps_all_replies_before(rt: HostRuntime) {
    assert!(rt; shell_is_exact(&rt, rt.alloc()));
}

/// Returns, for each line of a scan by one worker, how many requests it makes until the line is put together. The lines
/// are put together last, of the answers in `lines`.
fn ends_of_scan<H: Threads + Wait + Sync>(
    rt: &H,
    alloc: Global,
    request: Request,
    input: &[u8],
    lines: &[u8],
) -> Option<Vec<u64>> {
    let heap = Failing::counting(alloc);
    let answers = read_terms(&heap, lines).ok()?;
    let before = heap.requests();
    let mut put = Vec::new(&heap);
    let mut made = Vec::new(alloc);
    for answer in answers.as_slice() {
        put_line(b"", answer, b".\n", &mut put).ok()?;
        made.push(heap.requests().saturating_sub(before)).ok()?;
    }
    let all = heap.requests().saturating_sub(before);
    let first = requests_over(rt, alloc, request, input).saturating_sub(all);
    let mut ends = Vec::new(alloc);
    for requests in made.as_slice() {
        ends.push(first.saturating_add(*requests)).ok()?;
    }
    Some(ends)
}

/// The answers of a scan of a set in one part.
const SCANNED: &[u8] = b"{1,[]}.
{{a,b,c,d,e,f,g},[]}.
";

/// A specification and objects for a scan: more lines than fit where their room is first allocated.
const SCAN_OBJECTS: &[u8] = b"[{{'$1'},[],[{{'$1',[]}}]}]. {1}. {{a,b,c,d,e,f,g}}.";

/// Returns whether a scan by one worker keeps all lines before the one that was refused memory.
fn scan_is_exact<H: Threads + Wait + Sync>(rt: &H, alloc: Global) -> bool {
    let request = Request::Scan(ScanOptions {
        kind: ScanKind::Bag,
        keypos: 1,
        parts: 1,
        workers: 1,
    });
    let Some(ends) = ends_of_scan(rt, alloc, request, SCAN_OBJECTS, SCANNED) else {
        return false;
    };
    are_exact(rt, alloc, request, SCAN_OBJECTS, SCANNED, ends.as_slice())
}

#[test]
fn a_scan_by_one_worker_keeps_all_lines_before(rt: HostRuntime) {
    assert!(rt; scan_is_exact(&rt, rt.alloc()));
}

/// What a sweep over objects has seen: with how many lines the command ran out of memory, up to 8.
#[derive(Clone, Copy, Debug)]
struct Seen {
    lines: [bool; 8],
}

impl Seen {
    /// Records how many lines were written.
    fn note(&mut self, lines: usize) {
        if lines < 8 {
            self.lines[lines] = true;
        }
    }

    /// Returns whether the command ran out of memory with each number of lines from 1 up to one below `count`.
    fn are_all(&self, count: usize) -> bool {
        for lines in 1..8 {
            if lines < count && !self.lines[lines] {
                return false;
            }
        }
        true
    }
}

/// Returns whether a command writes all lines or, if memory runs out, the lines of the objects before, or nothing: it ran
/// out while the text was read.
fn is_of_objects<H: Threads + Wait + Sync>(
    rt: &H,
    alloc: Global,
    heap: &Failing<Global>,
    request: Request,
    lines: &[u8],
    ends: &[u64],
    seen: &mut Seen,
) -> bool {
    let (status, out) = run_over(rt, alloc, heap, request, OBJECTS);
    if status != OUT_OF_MEMORY {
        return status == 0 && out.as_slice() == lines;
    }
    if out.as_slice().is_empty() {
        return true;
    }
    let before = lines_before(ends, refused_by(heap.plan()));
    seen.note(before);
    out.as_slice() == first_lines(lines, before)
}

/// Returns whether `is_of_objects` is true with each request refused in turn, alone and together with all later ones, and
/// the lines before each object were written in some of these runs.
fn objects_are_exact<H: Threads + Wait + Sync>(
    rt: &H,
    alloc: Global,
    request: Request,
    lines: &[u8],
) -> bool {
    let Some(ends) = ends_of(rt, alloc, request, OBJECTS, 1) else {
        return false;
    };
    let ends = ends.as_slice();
    let count = lines_in(lines);
    let mut seen = Seen { lines: [false; 8] };
    let alone = sweep(alloc, MOST_RUNS, |heap| {
        is_of_objects(rt, alloc, heap, request, lines, ends, &mut seen) && heap.blocks() == 0
    });
    let mut seen_onward = Seen { lines: [false; 8] };
    let onward = sweep_onward(alloc, MOST_RUNS, |heap| {
        is_of_objects(rt, alloc, heap, request, lines, ends, &mut seen_onward) && heap.blocks() == 0
    });
    alone.is_complete() && onward.is_complete() && seen.are_all(count) && seen_onward.are_all(count)
}

#[test]
fn run_keeps_the_answers_before(rt: HostRuntime) {
    assert!(rt; objects_are_exact(&rt, rt.alloc(), Request::Run(Form::Canonical), ANSWERS));
}

#[test]
fn test_keeps_the_outcomes_before(rt: HostRuntime) {
    assert!(rt; objects_are_exact(&rt, rt.alloc(), Request::Test(Form::Canonical), OUTCOMES));
}

/// Objects of which the last has no end: the fault of the text is told, and nothing is written.
const CUT_OBJECTS: &[u8] = b"[{{'$1'},[],[{{'$1',[]}}]}].\n{1}.\n{[2]}.\n{<<3>>";

/// Returns whether a command over these objects writes nothing, and never ends well.
fn is_nothing<H: Threads + Wait + Sync>(
    rt: &H,
    alloc: Global,
    heap: &Failing<Global>,
    request: Request,
    told: &mut bool,
) -> bool {
    let (status, out) = run_over(rt, alloc, heap, request, CUT_OBJECTS);
    let was_refused = heap.was_refused();
    if status == 2 && was_refused {
        *told = true;
    }
    status == 2 && out.as_slice().is_empty() || status == OUT_OF_MEMORY && was_refused
}

/// Returns whether the fault of the text comes first, also after a request was refused, and is told in some of these
/// runs.
fn fault_is_first<H: Threads + Wait + Sync>(rt: &H, alloc: Global, request: Request) -> bool {
    let mut told = false;
    let alone = sweep(alloc, MOST_RUNS, |heap| {
        is_nothing(rt, alloc, heap, request, &mut told) && heap.blocks() == 0
    });
    alone.is_complete() && told
}

#[test]
fn a_fault_of_the_text_is_told_before_out_of_memory(rt: HostRuntime) {
    assert!(rt; fault_is_first(&rt, rt.alloc(), Request::Run(Form::Canonical)));
    assert!(rt; fault_is_first(&rt, rt.alloc(), Request::Test(Form::Canonical)));
}

/// What a shell for a person writes to some lines.
const PROMPTED: &[u8] = b"> true.
> true.
> [{1,\"abc\"}].
> {error,50}.
% the object is no tuple with an element at the place of the key
> {error,5,7}.
% at byte 7: syntax error
% {close b}.
%        ^
> \n";

/// These lines.
const ASKED: &[u8] =
    b"{open,set,1,1,1}.\n{insert,0,{1,\"abc\"}}.\n{lookup,0,1}.\n{insert,0,a}.\n{close b}.\n";

/// Returns whether a shell for a person writes all, or ends with out of memory and the beginning of it.
fn is_prompted<H: Threads + Wait + Sync>(
    rt: &H,
    alloc: Global,
    heap: &Failing<Global>,
    whole: &[u8],
) -> bool {
    let (status, out) = run_over(rt, alloc, heap, Request::Prompt, ASKED);
    if status != OUT_OF_MEMORY {
        return status == 0 && out.as_slice() == whole && !heap.was_refused();
    }
    heap.was_refused() && whole.starts_with(out.as_slice())
}

/// Returns whether a refused request ends a shell for a person with out of memory, and changes no reply before.
fn prompt_is_right<H: Threads + Wait + Sync>(rt: &H, alloc: Global, whole: &[u8]) -> bool {
    let alone = sweep(alloc, MOST_RUNS, |heap| {
        is_prompted(rt, alloc, heap, whole) && heap.blocks() == 0
    });
    let onward = sweep_onward(alloc, MOST_RUNS, |heap| {
        is_prompted(rt, alloc, heap, whole) && heap.blocks() == 0
    });
    alone.is_complete() && onward.is_complete()
}

#[test]
fn a_shell_for_a_person_ends_where_memory_does(rt: HostRuntime) {
    assert!(rt; prompt_is_right(&rt, rt.alloc(), PROMPTED));
}
