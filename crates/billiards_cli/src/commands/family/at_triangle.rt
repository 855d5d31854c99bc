//! The members of a stable family at one triangle.
ghost use Rattle.std.specs.Prelude.{◌≡◌, ◌≤◌, ◌⊎◌, ◌↔◌, ◌++◌, ℕ, List, Option, length, map, IsTrue, IfOk};
ghost use Rattle.std.specs.List.{All, flat_map};
ghost use Rattle.mcb_ends.specs.Bytes.{Writes};
ghost use Rattle.mcb_ends.specs.Causes.{HasCause};
ghost use Rattle.word_family.specs.Family.{Parts, IsStableFamily};
ghost use Rattle.billiards_cli.specs.Commands.Family.{SpellsFamily, IsShownMember, IsTested, AreOpen, word_numbers, member_line, members_text};
ghost use Rattle.billiards_cli.specs.EndLine.{end_text};
ghost use Rattle.billiards_cli.specs.Requests.{command_of};
ghost use Rattle.billiards_cli.specs.Services.{Serves};

use super::member::Member;
use crate::commands::at::is_open;
use crate::end_line::write_end;
use crate::refusal::write_argument_refusal;
use crate::request::Request;
use crate::status::after_writing;
use crate::{FamilyArgument, Status, Triangle};
use line_grammar::Reason;
use mcb_ends::{Decimal, Failed, OutOfMemory, Sink, put_all};
use std::alloc::Global;
use word_family::Family;

/// Writes of each member that is a word whether it was shown to be open at a triangle, once all are tested. It reads
/// nothing.
pub(crate) fn family_at<K: Sink>(
    alloc: Global,
    argument: &FamilyArgument,
    triangle: &Triangle,
    out: &mut K,
) -> Status
    ensures unwritten { (result ≡ Status.ReadFault) ⊎ (result ≡ Status.OutOfMemory) → out.new ≡ out.old }
    ensures room { K.room out.new ≡ K.room out.old }
    ensures serves { (left : Option (List ℕ)) (faults : ℕ) → Serves (command_of (Request.FamilyAt argument.now triangle.now))
        (record { left = left; source_faults = faults; written = K.written out.old; sink_faults = K.faults out.old })
        (record { left = left; source_faults = faults; written = K.written out.new; sink_faults = K.faults out.new })
        result }
{
    match argument.read() {
        Some(family) => answer(alloc, &family, triangle, out),
        None => after_writing(
            Status::Malformed,
            write_argument_refusal(Reason::NotAWord, out),
        ),
    }
}

// Tests the members of a family, which has to be stable.
fn answer<K: Sink>(alloc: Global, family: &Family, triangle: &Triangle, out: &mut K) -> Status
    ensures unwritten { (result ≡ Status.ReadFault) ⊎ (result ≡ Status.OutOfMemory) → out.new ≡ out.old }
    ensures room { K.room out.new ≡ K.room out.old }
    ensures serves { (texts : Parts) (left : Option (List ℕ)) (faults : ℕ) → SpellsFamily texts family.now
        → Serves (command_of (Request.FamilyAt texts triangle.now))
        (record { left = left; source_faults = faults; written = K.written out.old; sink_faults = K.faults out.old })
        (record { left = left; source_faults = faults; written = K.written out.new; sink_faults = K.faults out.new })
        result }
{
    if !family.is_stable() {
        return after_writing(
            Status::Malformed,
            write_argument_refusal(Reason::UnstableWord, out),
        );
    }
    match tested(alloc, family, triangle) {
        Ok(members) => {
            let members = members.as_slice();
            let written = write_list(members, out);
            if are_open(members) {
                after_writing(Status::Done, written)
            } else {
                after_writing(Status::NotShown, written)
            }
        }
        Err(OutOfMemory) => Status::OutOfMemory,
    }
}

// The members that are words, each tested.
fn tested(alloc: Global, family: &Family, triangle: &Triangle) -> Result<Vec<Member>, OutOfMemory>
    requires { IsStableFamily family.now }
    ensures numbers { IfOk result (λ members. map (λ m. m.number) members.items ≡ word_numbers family.now) }
    ensures shown { IfOk result (λ members. All (IsShownMember family.now triangle.now) members.items) }
{
    let mut members = Vec::new(alloc);
    for number in 1..65u32 {
        if let Some(member) = tested_member(alloc, family, triangle, number)? {
            members.push(member)?;
        }
    }
    Ok(members)
}

// The member with this number, tested where it is a word.
fn tested_member(
    alloc: Global,
    family: &Family,
    triangle: &Triangle,
    number: u32,
) -> Result<Option<Member>, OutOfMemory>
    requires stable { IsStableFamily family.now }
    requires number { (1 ≤ number) × (number ≤ 64) }
    ensures { IfOk result (IsTested family.now triangle.now number) }
{
    match family.word(alloc, number) {
        Some(word) => {
            let open = is_open(alloc, &word, triangle)?;
            Ok(Some(Member { number, open }))
        }
        None => Ok(None),
    }
}

fn are_open(members: &[Member]) -> bool
    ensures { IsTrue result ↔ AreOpen members.now }
{
    for member in members {
        if !member.open {
            return false;
        }
    }
    true
}

// Writes the members and their number.
fn write_list<K: Sink>(members: &[Member], out: &mut K) -> Result<(), Failed>
    ensures text { Writes (K.written out.old) (K.written out.new) result (members_text members.now) }
    ensures room { K.room out.new ≡ K.room out.old }
    ensures cause { HasCause (K.faults out.old) (K.faults out.new) result }
{
    write_members(members, out)?;
    write_end(members.len(), out)
}

fn write_members<K: Sink>(members: &[Member], out: &mut K) -> Result<(), Failed>
    ensures text { Writes (K.written out.old) (K.written out.new) result (flat_map member_line members.now) }
    ensures room { K.room out.new ≡ K.room out.old }
    ensures cause { HasCause (K.faults out.old) (K.faults out.new) result }
{
    for member in members {
        write_member(*member, out)?;
    }
    Ok(())
}

fn write_member<K: Sink>(member: Member, out: &mut K) -> Result<(), Failed>
    ensures text { Writes (K.written out.old) (K.written out.new) result (member_line member) }
    ensures room { K.room out.new ≡ K.room out.old }
    ensures cause { HasCause (K.faults out.old) (K.faults out.new) result }
{
    let number = Decimal::new(u64::from(member.number));
    if member.open {
        put_all(out, &[number.digits(), b" open\n"])
    } else {
        put_all(out, &[number.digits(), b" not shown\n"])
    }
}
