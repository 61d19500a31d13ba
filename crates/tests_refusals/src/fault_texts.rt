//! The texts of faults, which say in words what their error codes and arguments say: of each enum of faults each
//! variant, in the order of `TermFault`, `TextFault`, `SpecFault`, `BuildFault`, `FileFault`, `CodeFault`, `BodyFault`,
//! `PartFault`, `OpenFault`, `WalkFault`, `SelectFault`, `Lost` and `ToolFault`. A text follows its error code, if there
//! is one. The text for code that is not verified also follows the number of the instruction.
use code_file::FileFault;
use gate::Lost;
use mcode::Fault as BuildFault;
use mspec_syntax::SpecFault;
use parallel_select::SelectFault;
use part_core::{Fault as PartFault, OpenFault};
use std::alloc::Global;
use std::fmt::Display;
use std::io::Write;
use term_core::Fault as TermFault;
use term_text::TextFault;
use tool_io::ToolFault;
use verifier::{BodyFault, Fault as CodeFault};
use walks::WalkFault;

/// A fault that has an error code.
trait Numbered: Copy + Display {
    fn number_of(self) -> u8;
}

impl Numbered for TermFault {
    fn number_of(self) -> u8 {
        self.number()
    }
}

impl Numbered for TextFault {
    fn number_of(self) -> u8 {
        self.number()
    }
}

impl Numbered for SpecFault {
    fn number_of(self) -> u8 {
        self.number()
    }
}

impl Numbered for BuildFault {
    fn number_of(self) -> u8 {
        self.number()
    }
}

impl Numbered for FileFault {
    fn number_of(self) -> u8 {
        self.number()
    }
}

impl Numbered for CodeFault {
    fn number_of(self) -> u8 {
        self.number()
    }
}

impl Numbered for PartFault {
    fn number_of(self) -> u8 {
        self.number()
    }
}

impl Numbered for OpenFault {
    fn number_of(self) -> u8 {
        self.number()
    }
}

impl Numbered for WalkFault {
    fn number_of(self) -> u8 {
        self.number()
    }
}

impl Numbered for SelectFault {
    fn number_of(self) -> u8 {
        self.number()
    }
}

/// Appends a line with the error code and the text of a fault; returns `false` if memory runs out.
fn put<F: Numbered>(lines: &mut Vec<u8>, fault: F) -> bool {
    let number = fault.number_of();
    write!(lines, "{number} {fault}\n").is_ok()
}

/// Appends the line of each of these faults; returns `false` if memory runs out.
fn put_all<F: Numbered>(lines: &mut Vec<u8>, faults: &[F]) -> bool {
    let mut is_whole = true;
    for fault in faults {
        is_whole = put(lines, *fault) && is_whole;
    }
    is_whole
}

/// Returns whether the lines of these faults are the wanted ones.
fn are_told<F: Numbered>(alloc: Global, faults: &[F], wanted: &str) -> bool {
    let mut lines = Vec::new(alloc);
    put_all(&mut lines, faults) && lines.as_slice() == wanted.as_bytes()
}

/// Appends a line with the text of a fault alone; returns `false` if memory runs out.
fn put_text<F: Display + Copy>(lines: &mut Vec<u8>, fault: F) -> bool {
    write!(lines, "{fault}\n").is_ok()
}

const TERMS: [TermFault; 4] = [
    TermFault::Memory,
    TermFault::TooDeep,
    TermFault::TooLong,
    TermFault::DuplicateKey,
];

const OF_TERMS: &str = "\
1 out of memory
2 the term is too deep
3 the term is too long
4 a key stands twice in a map
";

const TEXTS: [TextFault; 8] = [
    TextFault::Memory,
    TextFault::TooDeep(1),
    TextFault::TooLong(2),
    TextFault::DuplicateKey(3),
    TextFault::Syntax(4),
    TextFault::BadUtf8(5),
    TextFault::IntegerRange(6),
    TextFault::UnsupportedEscape(7),
];

const OF_TEXTS: &str = "\
1 out of memory
2 at byte 1: the term is too deep
3 at byte 2: the term is too long
4 at byte 3: the key stands twice in its map
5 at byte 4: syntax error
6 at byte 5: not UTF-8
7 at byte 6: the integer is out of range
8 at byte 7: unsupported escape
";

const SPECIFICATIONS: [SpecFault; 12] = [
    SpecFault::Memory,
    SpecFault::NotAList,
    SpecFault::NotAClause(1),
    SpecFault::BadHead(2),
    SpecFault::BadConditions(3),
    SpecFault::BadBody(4),
    SpecFault::UnknownCall(5),
    SpecFault::Unbound(6, 60),
    SpecFault::BadVariableName(7),
    SpecFault::BadExpression(8),
    SpecFault::VariableInMapKey(9),
    SpecFault::TooLarge,
];

const OF_SPECIFICATIONS: &str = "\
1 out of memory
10 the specification is no proper list
11 clause 1 is no tuple of a head, conditions and a body
12 the head of clause 2 is no variable, '_' or tuple
13 the conditions of clause 3 are no list of conditions
14 the body of clause 4 is no proper list with an element
15 clause 5 calls what is no function of so many arguments
16 clause 6 names the variable 60, which its head does not bind
17 clause 7 has $ and digits that are no variable's name
18 clause 8 has a term that is no expression
19 a key of a map in the head of clause 9 holds a variable or '_'
20 the specification is too large
";

const BUILDING: [BuildFault; 3] = [
    BuildFault::Memory,
    BuildFault::Limit,
    BuildFault::FrameOrder,
];

const OF_BUILDING: &str = "\
1 out of memory
36 the code has too many parts of a kind
37 the frame is out of order
";

const FILES: [FileFault; 8] = [
    FileFault::Memory,
    FileFault::BadMagic,
    FileFault::BadVersion,
    FileFault::Truncated(1),
    FileFault::BadOpcode(2),
    FileFault::NotCanonical(3),
    FileFault::Trailing(4),
    FileFault::Limit,
];

const OF_FILES: &str = "\
1 out of memory
30 no code file
31 a code file of another version
32 at byte 1: the code file ends too early
33 at byte 2: the byte names nothing
34 at byte 3: not as code files are written
35 at byte 4: the code file goes on behind its end
36 past a limit
";

const CODE: [CodeFault; 12] = [
    CodeFault::Memory,
    CodeFault::Underflow(0),
    CodeFault::Kind(1),
    CodeFault::Unbound(2),
    CodeFault::JumpOutside(3),
    CodeFault::JumpBack(4),
    CodeFault::Frame(5),
    CodeFault::FallsOff(6),
    CodeFault::Constant(7),
    CodeFault::Depth(65_535),
    CodeFault::Routine(8),
    CodeFault::Budget,
];

const OF_CODE: &str = "\
1 out of memory
0 40 instruction 0 finds too few operands
1 41 instruction 1 finds an operand of the wrong kind
2 42 instruction 2 names a slot that isn't bound
3 43 instruction 3 jumps out of the code
4 44 instruction 4 jumps back
5 45 the frame at or of instruction 5 doesn't hold
6 46 the code ends after instruction 6, which goes on
7 47 instruction 7 names a constant that isn't what it needs
65535 48 instruction 65535 leaves a stack that is too deep
8 49 instruction 8 invokes no later routine, or may not stand in its body
39 the body may take too many instructions
";

/// The texts of the faults of code in the bodies 0 to 11, which have no error codes of their own.
const OF_BODIES: &str = "\
body 0: out of memory
body 1: instruction 0 finds too few operands
body 2: instruction 1 finds an operand of the wrong kind
body 3: instruction 2 names a slot that isn't bound
body 4: instruction 3 jumps out of the code
body 5: instruction 4 jumps back
body 6: the frame at or of instruction 5 doesn't hold
body 7: the code ends after instruction 6, which goes on
body 8: instruction 7 names a constant that isn't what it needs
body 9: instruction 65535 leaves a stack that is too deep
body 10: instruction 8 invokes no later routine, or may not stand in its body
body 11: the body may take too many instructions
";

const PARTS: [PartFault; 6] = [
    PartFault::Memory,
    PartFault::TooSmall,
    PartFault::FixLimit,
    PartFault::NotFixed,
    PartFault::BadKey,
    PartFault::CursorOutside,
];

const OF_PARTS: &str = "\
1 out of memory
50 the object is too small
51 the part is fixed too often
52 the part isn't fixed by the session
53 the key has no row
54 the cursor isn't the part's
";

const OPENING: [OpenFault; 2] = [OpenFault::Memory, OpenFault::BadOptions];

const OF_OPENING: &str = "\
1 out of memory
60 the options don't fit
";

const WALKS: [WalkFault; 3] = [
    WalkFault::Memory,
    WalkFault::StrangerContinuation,
    WalkFault::BadLimit,
];

const OF_WALKS: &str = "\
1 out of memory
62 the walk is another's
63 the limit is 0
";

const SELECTIONS: [SelectFault; 2] = [SelectFault::Memory, SelectFault::BadOptions];

const OF_SELECTIONS: &str = "\
1 out of memory
60 the members aren't 1 to 16
";

const COMMANDS: [ToolFault; 10] = [
    ToolFault::Memory,
    ToolFault::Text(TextFault::Syntax(3)),
    ToolFault::BadInput,
    ToolFault::Specification(SpecFault::Unbound(0, 7)),
    ToolFault::File(FileFault::Truncated(9)),
    ToolFault::Code(CodeFault::Underflow(2), 0),
    ToolFault::TooSmall,
    ToolFault::BadOptions,
    ToolFault::ReadFailed,
    ToolFault::WriteFailed,
];

/// The texts without the error codes, which are in the error line of each.
const OF_COMMANDS: &str = "\
out of memory
at byte 3: syntax error
other terms than the command reads
clause 0 names the variable 7, which its head does not bind
at byte 9: the code file ends too early
instruction 2 finds too few operands
a term is no object of the table
an option is outside its range
the input can't be read
the output can't be written
";

/// Appends the number of the instruction, if there is one; returns `false` if memory runs out.
fn put_place(lines: &mut Vec<u8>, pc: Option<u16>) -> bool {
    match pc {
        Some(pc) => write!(lines, "{pc} ").is_ok(),
        None => true,
    }
}

/// Appends the line of each fault of code, after the instruction that it names; returns `false` if memory runs out.
fn put_places(lines: &mut Vec<u8>, faults: &[CodeFault]) -> bool {
    let mut is_whole = true;
    for fault in faults {
        is_whole = put_place(lines, fault.pc()) && put(lines, *fault) && is_whole;
    }
    is_whole
}

/// Returns whether the lines of the faults of code are right.
fn are_told_of_code(alloc: Global) -> bool {
    let mut lines = Vec::new(alloc);
    put_places(&mut lines, &CODE) && lines.as_slice() == OF_CODE.as_bytes()
}

/// Appends the text of each fault of code in a body, of which the first is the main body; returns `false` if memory runs
/// out.
fn put_bodies(lines: &mut Vec<u8>, faults: &[CodeFault]) -> bool {
    let mut is_whole = true;
    let mut body: u16 = 0;
    for fault in faults {
        let fault = *fault;
        is_whole = put_text(lines, BodyFault { fault, body }) && is_whole;
        body = body.saturating_add(1);
    }
    is_whole
}

/// Returns whether the texts of the faults of bodies are right.
fn are_told_of_bodies(alloc: Global) -> bool {
    let mut lines = Vec::new(alloc);
    put_bodies(&mut lines, &CODE) && lines.as_slice() == OF_BODIES.as_bytes()
}

/// Returns whether the text for a part that can't be returned, which has no error code, is right.
fn is_told_of_a_lost_part(alloc: Global) -> bool {
    let mut lines = Vec::new(alloc);
    put_text(&mut lines, Lost) && lines.as_slice() == b"the part is lost\n".as_slice()
}

/// Appends the text of each fault of a command; returns `false` if memory runs out.
fn put_texts(lines: &mut Vec<u8>, faults: &[ToolFault]) -> bool {
    let mut is_whole = true;
    for fault in faults {
        is_whole = put_text(lines, *fault) && is_whole;
    }
    is_whole
}

/// Returns whether the texts of the faults of commands are right.
fn are_told_of_commands(alloc: Global) -> bool {
    let mut lines = Vec::new(alloc);
    put_texts(&mut lines, &COMMANDS) && lines.as_slice() == OF_COMMANDS.as_bytes()
}

/// Returns whether the lines of the faults of terms are right.
fn are_told_of_terms(alloc: Global) -> bool {
    are_told(alloc, &TERMS, OF_TERMS)
}

/// Returns whether the lines of the faults of texts are right.
fn are_told_of_texts(alloc: Global) -> bool {
    are_told(alloc, &TEXTS, OF_TEXTS)
}

/// Returns whether the lines of the faults of specifications are right.
fn are_told_of_specifications(alloc: Global) -> bool {
    are_told(alloc, &SPECIFICATIONS, OF_SPECIFICATIONS)
}

/// Returns whether the lines of the faults of building code are right.
fn are_told_of_building(alloc: Global) -> bool {
    are_told(alloc, &BUILDING, OF_BUILDING)
}

/// Returns whether the lines of the faults of files are right.
fn are_told_of_files(alloc: Global) -> bool {
    are_told(alloc, &FILES, OF_FILES)
}

/// Returns whether the lines of the faults of parts are right.
fn are_told_of_parts(alloc: Global) -> bool {
    are_told(alloc, &PARTS, OF_PARTS)
}

/// Returns whether the lines of the faults of opening tables are right.
fn are_told_of_opening(alloc: Global) -> bool {
    are_told(alloc, &OPENING, OF_OPENING)
}

/// Returns whether the lines of the faults of walks are right.
fn are_told_of_walks(alloc: Global) -> bool {
    are_told(alloc, &WALKS, OF_WALKS)
}

/// Returns whether the lines of the faults of selections are right.
fn are_told_of_selections(alloc: Global) -> bool {
    are_told(alloc, &SELECTIONS, OF_SELECTIONS)
}

#[test]
fn each_refusal_is_told(rt: HostRuntime) {
    let alloc = rt.alloc();
    assert!(rt; are_told_of_terms(alloc));
    assert!(rt; are_told_of_texts(alloc));
    assert!(rt; are_told_of_specifications(alloc));
    assert!(rt; are_told_of_building(alloc));
    assert!(rt; are_told_of_files(alloc));
    assert!(rt; are_told_of_code(alloc));
    assert!(rt; are_told_of_bodies(alloc));
    assert!(rt; are_told_of_parts(alloc));
    assert!(rt; are_told_of_opening(alloc));
    assert!(rt; are_told_of_walks(alloc));
    assert!(rt; are_told_of_selections(alloc));
    assert!(rt; is_told_of_a_lost_part(alloc));
    assert!(rt; are_told_of_commands(alloc));
}
