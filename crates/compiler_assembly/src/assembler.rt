//! Assembling code from blocks of lines.
ghost use Rattle.std.specs.Prelude.{◌≡◌, ◌+◌, ◌<◌, ◌⊎◌, [], length, IfOk, IfErr, OnOk, MatchOption};
ghost use Rattle.mcode.specs.Building.{with_constant, finished, IsPartRefused};
ghost use Rattle.mcode.specs.Program.{most_parts};
ghost use Rattle.mcode.specs.Frame.{frame_of};
ghost use Rattle.mcode.specs.declared.fault.Fault.TheVariants.{Memory};
ghost use Rattle.compiler_assembly.specs.Assembled.{assembled, IsCode, frame_of as frame_at_label};
ghost use Rattle.compiler_assembly.specs.Assembling.{with_blocks, with_labelled, IsLabelTooMuch};

use crate::block::Block;
use crate::instruction::{Place, instruction};
use crate::line::{Label, Line};
use crate::lines::Lines;
use crate::pool::Pool;
use mcode::{Builder, Code, Fault, Frame, Places, Slots};
use std::alloc::{AllocError, Allocator, Global};
use term_core::Term;

/// Returns the frame of a label at an instruction, in a block with these bound slots. Fails if an allocation fails.
fn frame<A: Allocator + Copy>(
    alloc: A,
    slots: &Slots<A>,
    pc: u16,
    label: Label<Places<A>>,
) -> Result<Frame<A>, AllocError>
    ensures { IfOk result (λ frame. frame_of frame ≡ frame_at_label slots.now pc label) }
{
    match label {
        Label::Inside { depth, integers } => {
            let numbers = Vec::from_slice(alloc, slots.as_slice())?;
            Ok(Frame {
                pc,
                depth,
                places: integers,
                slots: Slots::new(numbers),
            })
        }
        Label::Clean => Ok(Frame {
            pc,
            depth: 0,
            places: Places::new(Vec::new(alloc)),
            slots: Slots::new(Vec::new(alloc)),
        }),
    }
}

/// Adds the frame of a label at an instruction, if there is a label. Fails if an allocation fails, or if the frame
/// can't follow those that are there.
fn add_label<A: Allocator + Copy>(
    alloc: A,
    builder: &mut Builder<A>,
    slots: &Slots<A>,
    pc: u16,
    label: Option<Label<Places<A>>>,
) -> Result<(), Fault>
    ensures ok { OnOk result (builder.new ≡ with_labelled builder.old slots.now pc label) }
    ensures refused { IfErr result (λ fault. (fault ≡ Memory)
        ⊎ IsLabelTooMuch builder.old slots.now pc label) }
{
    let Some(label) = label else {
        return Ok(());
    };
    let Ok(frame) = frame(alloc, slots, pc, label) else {
        return Err(Fault::Memory);
    };
    builder.frame(frame).map_err(|refused| refused.fault)
}

/// Returns the number of the instruction after `count` instructions that begin at `pc`, or `None` if it exceeds 65,535.
fn number_following(pc: u16, count: usize) -> Option<u16>
    ensures { MatchOption result (most_parts < pc + count) (λ behind. behind ≡ pc + count) }
{
    let behind = usize::from(pc).checked_add(count)?;
    match u16::try_from(behind) {
        Ok(behind) => Some(behind),
        Err(_) => None,
    }
}

/// The code assembled so far: the constants, and the instructions and frames that name them.
#[derive(Drop)]
struct Assembler<A: Allocator = Global> {
    alloc: A,
    pool: Pool<A>,
    builder: Builder<A>,
}

impl<A: Allocator + Copy> Assembler<A> {
    ghost use Rattle.std.specs.Prelude.{suc, ◌≡◌, ◌+◌, ◌<◌, ◌⊎◌, [], length, IfOk, IfErr, OnOk, OnErr};
    ghost use Rattle.mcode.specs.Building.{empty_program};
    ghost use Rattle.mcode.specs.Program.{most_slots};
    ghost use Rattle.compiler_assembly.specs.Assembled.{IsCode};
    ghost use Rattle.compiler_assembly.specs.Assembling.{with_blocks, IsLineAdded, IsLineTooMuch, AreLinesAdded, AreLinesTooMuch, IsBlockAdded, IsBlockTooMuch};
    ghost use Rattle.mcode.specs.declared.fault.Fault.TheVariants.{Memory};

    /// Returns no code yet, over `slots` slots. Fails if there are too many slots.
    fn empty(alloc: A, slots: u16) -> Result<Self, Fault>
        ensures pool { IfOk result (λ assembler. assembler.pool ≡ []) }
        ensures builder { IfOk result (λ assembler. assembler.builder ≡ empty_program slots) }
        ensures refused { OnErr result (most_slots < slots) }
    {
        let builder = Builder::new(alloc, slots)?;
        Ok(Assembler {
            alloc,
            pool: Pool::new(alloc),
            builder,
        })
    }

    /// Adds a line of a block with these bound slots. Fails if an allocation fails, or if a limit of code is exceeded.
    fn add_line(
        &mut self,
        slots: &Slots<A>,
        place: Place,
        line: Line<Term<A>, Places<A>>,
    ) -> Result<(), Fault>
        requires { place.pc < place.behind }
        ensures ok { OnOk result (IsLineAdded self.old.pool self.old.builder self.new.pool
            self.new.builder slots.now place.behind place.pc line) }
        ensures count { OnOk result (length self.new.builder.instructions
            ≡ suc (length self.old.builder.instructions)) }
        ensures refused { IfErr result (λ fault. (fault ≡ Memory)
            ⊎ IsLineTooMuch self.old.pool self.old.builder slots.now place.behind place.pc line) }
    {
        let Line { op, label } = line;
        let instr = instruction(&mut self.pool, op, place)?;
        let _pc = self.builder.instr(instr)?;
        let alloc = self.alloc;
        add_label(alloc, &mut self.builder, slots, place.pc + 1, label)
    }

    /// Adds the last lines of a block with these bound slots. Fails if an allocation fails, or if a limit of code is
    /// exceeded.
    fn add_lines(&mut self, slots: &Slots<A>, place: Place, lines: Lines<A>) -> Result<(), Fault>
        requires fits { place.pc + length lines ≡ place.behind }
        requires count { place.pc ≡ length self.old.builder.instructions }
        ensures ok { OnOk result (AreLinesAdded self.old.pool self.old.builder self.new.pool
            self.new.builder slots.now place.behind place.pc lines) }
        ensures count { OnOk result (place.behind ≡ length self.new.builder.instructions) }
        ensures refused { IfErr result (λ fault. (fault ≡ Memory) ⊎ AreLinesTooMuch self.old.pool
            self.old.builder slots.now place.behind place.pc lines) }
    {
        let mut place = place;
        let mut lines = lines;
        while let Some(line) = lines.pop_front() {
            self.add_line(slots, place, line)?;
            place.pc += 1;
        }
        Ok(())
    }

    /// Adds a block whose first line is at `pc`, and returns the number of the instruction after it. Fails if an
    /// allocation fails, or if a limit of code is exceeded.
    fn add_block(&mut self, pc: u16, block: Block<A>) -> Result<u16, Fault>
        requires { pc ≡ length self.old.builder.instructions }
        ensures ok { IfOk result (λ behind. IsBlockAdded self.old.pool self.old.builder
            self.new.pool self.new.builder pc behind block) }
        ensures count { IfOk result (λ behind. behind ≡ length self.new.builder.instructions) }
        ensures refused { IfErr result (λ fault. (fault ≡ Memory)
            ⊎ IsBlockTooMuch self.old.pool self.old.builder pc block) }
    {
        let (slots, lines) = block.into_parts();
        let Some(behind) = number_following(pc, lines.len()) else {
            return Err(Fault::Limit);
        };
        self.add_lines(&slots, Place { pc, behind }, lines)?;
        Ok(behind)
    }

    /// Adds the blocks, one after the other. Fails if an allocation fails, or if a limit of code is exceeded.
    fn add_blocks(&mut self, blocks: Vec<Block<A>, A>) -> Result<(), Fault>
        requires { self.old.builder.instructions ≡ [] }
        ensures ok { OnOk result (with_blocks self.new.pool self.new.builder 0 []
            ≡ with_blocks self.old.pool self.old.builder 0 blocks.items) }
        ensures refused { IfErr result (λ fault. (fault ≡ Memory)
            ⊎ (¬ IsCode (with_blocks self.old.pool self.old.builder 0 blocks.items))) }
    {
        let mut left = blocks;
        left.reverse();
        let mut pc = 0;
        while let Some(block) = left.pop() {
            pc = self.add_block(pc, block)?;
        }
        Ok(())
    }
}

/// Appends a constant to the code. Fails if an allocation fails or there are too many.
fn add_constant<A: Allocator>(builder: &mut Builder<A>, term: Term<A>) -> Result<(), Fault>
    ensures ok { OnOk result (builder.new ≡ with_constant builder.old term) }
    ensures refused { IfErr result (λ fault. IsPartRefused (length builder.old.constants) fault) }
{
    let _number = builder.constant(term).map_err(|refused| refused.fault)?;
    Ok(())
}

/// Returns the code with these constants appended to those that it has. Fails if an allocation fails or there are too
/// many.
fn with_constants<A: Allocator>(
    builder: Builder<A>,
    terms: Vec<Term<A>, A>,
) -> Result<Code<A>, Fault>
    ensures ok { IfOk result (λ code. code ≡ finished (with_blocks terms.items builder 0 [])) }
    ensures refused { IfErr result (λ fault. (fault ≡ Memory)
        ⊎ (¬ IsCode (with_blocks terms.items builder 0 []))) }
{
    let mut builder = builder;
    let mut left = terms;
    left.reverse();
    while let Some(term) = left.pop() {
        add_constant(&mut builder, term)?;
    }
    Ok(builder.finish())
}

/// Returns the code of these blocks, one after the other, over `slots` slots: each constant once, in order of first
/// use, each target as the number of the instruction to which it leads, and a frame at each label. Fails if an
/// allocation fails, if a count or target exceeds a limit of code, or if frames are out of order.
pub fn assemble<A: Allocator + Copy>(
    alloc: A,
    slots: u16,
    blocks: Vec<Block<A>, A>,
) -> Result<Code<A>, Fault>
    ensures ok { IfOk result (λ code. code ≡ assembled slots blocks.items) }
    ensures refused { IfErr result (λ fault. (fault ≡ Memory)
        ⊎ (¬ IsCode (assembled slots blocks.items))) }
{
    let mut assembler = Assembler::empty(alloc, slots)?;
    assembler.add_blocks(blocks)?;
    with_constants(assembler.builder, assembler.pool.into_terms())
}
