//! The parts of a body of code.
ghost use Rattle.std.specs.Prelude.{◌≡◌, ◌≤◌, ◌++◌, ◌∷◌, [], length, map, OnOk, OnErr, IfErr};
ghost use Rattle.std.specs.Option.{option_map, option_copied};
ghost use Rattle.mcode.specs.Frame.{frame_of};
ghost use Rattle.mcode.specs.Program.{most_parts, Rise, AreFrames, frame_number, frame_at};
ghost use Rattle.mcode.specs.Building.{IsFrameTooMany, IsNextFrame};

use crate::frame::Frame;
use crate::instr::Instr;
use std::alloc::{AllocError, AllocFailed, Allocator, Global};
use std::marker::Model;

/// Returns the frame at an instruction among these, which are in ascending order, or `None` if there is none.
fn frame_with<A: Allocator>(frames: &[Frame<A>], pc: u16) -> Option<&Frame<A>>
    requires { Rise frame_number (map frame_of frames.now) }
    ensures { option_map frame_of (option_copied result) ≡ frame_at (map frame_of frames.now) pc }
{
    match frames.binary_search_by(|frame| frame.pc.cmp(&pc)) {
        Ok(place) => Some(&frames[place]),
        Err(_) => None,
    }
}

/// Appends a frame that fits after those that are there. On failure, hands it back.
fn add_frame<A: Allocator>(
    frames: &mut Vec<Frame<A>, A>,
    frame: Frame<A>,
) -> Result<(), AllocFailed<Frame<A>>>
    requires frames { AreFrames (map frame_of frames.old.items) }
    requires fits { ¬ IsFrameTooMany (map frame_of frames.old.items) (frame_of frame) }
    requires next { IsNextFrame (map frame_of frames.old.items) (frame_of frame) }
    ensures items { OnOk result (map frame_of frames.new.items ≡ map frame_of frames.old.items
        ++ frame_of frame ∷ []) }
    ensures frames { AreFrames (map frame_of frames.new.items) }
    ensures count { length (map frame_of frames.new.items) ≤ most_parts }
    ensures kept { OnErr result (frames.new.items ≡ frames.old.items) }
    ensures back { IfErr result (λ failed. frame_of failed.value ≡ frame_of frame) }
{
    frames.push(frame)?;
    Ok(())
}

/// The slots, instructions and frames of a body.
#[derive(Drop)]
pub(crate) struct Parts<A: Allocator = Global> {
    slots: u16,
    instructions: Vec<Instr, A>,
    frames: Vec<Frame<A>, A>,
}

impl<A: Allocator> Model for Parts<A> {
    ghost use Rattle.mcode.specs.Program.{Body, IsBody};
    ghost use Rattle.mcode.specs.Frame.{body_with};

    ghost Value = { Body };

    ghost view = { λ p. body_with p.slots p.instructions.items p.frames.items };

    ghost invariant = { λ p. IsBody (body_with p.slots p.instructions.items p.frames.items) };
}

impl<A: Allocator> Parts<A> {
    ghost use Rattle.std.specs.Prelude.{◌≡◌, ◌<◌, ◌≤◌, length, map, OnOk, OnErr, IfErr};
    ghost use Rattle.std.specs.Option.{option_map, option_copied};
    ghost use Rattle.mcode.specs.Frame.{frame_of};
    ghost use Rattle.mcode.specs.Program.{IsBody, most_slots, most_parts, frame_at};
    ghost use Rattle.mcode.specs.Building.{empty_body, one_instruction_more, one_frame_more, IsFrameTooMany, IsNextFrame};

    /// Makes a body without parts, with this number of slots.
    pub(crate) fn empty(alloc: A, slots: u16) -> Self
    where
        A: Copy,
        requires { slots ≤ most_slots }
        ensures { result ≡ empty_body slots }
    {
        Parts {
            slots,
            instructions: Vec::new(alloc),
            frames: Vec::new(alloc),
        }
    }

    /// Appends an instruction.
    pub(crate) fn push_instruction(&mut self, instr: Instr) -> Result<(), AllocError>
        requires { length self.old.instructions < most_parts }
        ensures ok { OnOk result (self.new ≡ one_instruction_more self.old instr) }
        ensures kept { OnErr result (self.new ≡ self.old) }
    {
        match self.instructions.push(instr) {
            Ok(()) => Ok(()),
            Err(_) => Err(AllocError),
        }
    }

    /// Appends a frame. It is above the others and in order. On failure, hands it back.
    pub(crate) fn push_frame(&mut self, frame: Frame<A>) -> Result<(), AllocFailed<Frame<A>>>
        requires fits { ¬ IsFrameTooMany self.old.frames (frame_of frame) }
        requires next { IsNextFrame self.old.frames (frame_of frame) }
        ensures ok { OnOk result (self.new ≡ one_frame_more self.old (frame_of frame)) }
        ensures kept { OnErr result (self.new ≡ self.old) }
        ensures within { IsBody self.new }
        ensures back { IfErr result (λ failed. frame_of failed.value ≡ frame_of frame) }
    {
        add_frame(&mut self.frames, frame)
    }

    /// Returns the number of slots.
    pub(crate) fn slots(&self) -> u16
        ensures value { result ≡ self.now.slots }
        ensures within { IsBody self.now }
    {
        self.slots
    }

    /// Returns the instructions.
    pub(crate) fn instructions(&self) -> &[Instr]
        ensures value { result.now ≡ self.now.instructions }
        ensures within { IsBody self.now }
    {
        self.instructions.as_slice()
    }

    /// Returns the frames, in ascending order of their instructions.
    pub(crate) fn frames(&self) -> &[Frame<A>]
        ensures value { map frame_of result.now ≡ self.now.frames }
        ensures within { IsBody self.now }
    {
        self.frames.as_slice()
    }

    /// Returns the frame at an instruction, or `None` if there is none.
    pub(crate) fn frame_at(&self, pc: u16) -> Option<&Frame<A>>
        ensures { option_map frame_of (option_copied result) ≡ frame_at self.now.frames pc }
    {
        frame_with(self.frames.as_slice(), pc)
    }
}
