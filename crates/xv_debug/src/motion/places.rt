//! Where Runs that are sent at once have to stop.
ghost use Rattle.std.specs.Prelude.{◌≡◌, ◌++◌, IfSome, true};
ghost use Rattle.std.specs.Option.{option_to_list};
ghost use Rattle.xv_debug.specs.motion.Places as meant;
ghost use Rattle.xv_debug.specs.motion.Places.{ArePlaces, IsFar, all_of};

use crate::motion::aiming::Aim;
use arrayvec::ArrayVec;
use debug_words::Mark;
use xv_session::Condition;

/// The most addresses that are kept: that of an aim, and those of 16 marks.
const ADDRESSES_MOST: usize = 17;

type Addresses = ArrayVec<u64, ADDRESSES_MOST>;

/// Where the process that runs has to stop: its next instruction stands at one of these addresses, or stores to one of
/// these bytes.
#[derive(Drop)]
pub(crate) struct Places {
    pub addresses: Addresses,
    pub bytes: Addresses,
}

/// Addresses of instructions, or of bytes that are stored to.
#[derive(Clone, Copy)]
enum Kind {
    Instructions,
    Bytes,
}

/// The address of a mark, if it is of this kind.
fn of_mark(kind: Kind, mark: &Mark) -> Option<u64>
    ensures { result ≡ meant.of_mark kind mark.now }
{
    match (kind, *mark) {
        (Kind::Instructions, Mark::At { address, .. }) => Some(address),
        (Kind::Bytes, Mark::Store(address)) => Some(address),
        _ => None,
    }
}

/// The address that a search waits for, if it is of this kind.
fn of_condition(kind: Kind, condition: &Condition) -> Option<u64>
    ensures { result ≡ meant.of_condition kind condition.now }
{
    match (kind, *condition) {
        (Kind::Instructions, Condition::At { pc, .. }) => Some(pc),
        (Kind::Bytes, Condition::StoreTo(address)) => Some(address),
        _ => None,
    }
}

/// The address of an aim, if it is of this kind.
fn of_aim(kind: Kind, aim: &Aim) -> Option<u64>
    ensures { result ≡ meant.of_aim kind aim.now }
{
    match (kind, aim) {
        (_, Aim::On(condition)) => of_condition(kind, condition),
        (Kind::Instructions, Aim::Return { pc, .. }) => Some(*pc),
        _ => None,
    }
}

/// Whether a done instruction that leads to none of its addresses is never the aim.
fn is_far(aim: &Aim) -> bool
    ensures { result ≡ true → IsFar aim.now }
{
    match aim {
        Aim::Anything | Aim::On(Condition::StepOf(_)) | Aim::Outside { .. } => false,
        _ => true,
    }
}

/// Adds an address, if there is one. The answer tells whether there was room.
fn add(addresses: &mut Addresses, address: Option<u64>) -> bool
    ensures { result ≡ true → addresses.new.items ≡ addresses.old.items ++ option_to_list address }
{
    let Some(address) = address else {
        return true;
    };
    addresses.try_push(address).is_ok()
}

/// All addresses of a kind; `None` if they are too many.
fn all_of(kind: Kind, aim: &Aim, marks: &[Mark]) -> Option<Addresses>
    ensures { IfSome result (λ v. v.items ≡ all_of kind aim.now marks.now) }
{
    let mut addresses = Addresses::new();
    if !add(&mut addresses, of_aim(kind, aim)) {
        return None;
    }
    for mark in marks {
        if !add(&mut addresses, of_mark(kind, mark)) {
            return None;
        }
    }
    Some(addresses)
}

/// Where Runs have to stop that are sent up to an aim or a mark; `None` if each event has to be looked at.
pub(crate) fn places_of(aim: &Aim, marks: &[Mark]) -> Option<Places>
    ensures { IfSome result (ArePlaces aim.now marks.now) }
{
    if !is_far(aim) {
        return None;
    }
    Some(Places {
        addresses: all_of(Kind::Instructions, aim, marks)?,
        bytes: all_of(Kind::Bytes, aim, marks)?,
    })
}
