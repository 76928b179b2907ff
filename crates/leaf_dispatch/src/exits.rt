//! The exit of a guest, and the event that a guest's turn tells.

ghost use Rattle.std.specs.Prelude.{◌≡◌, ◌<◌};
ghost use Rattle.td_words.specs.Limits.{IsMachine};
ghost use Rattle.leaf_table.specs.Steps.{step_seen};
ghost use Rattle.trace_laws.specs.Told.{step_told, event_told};
ghost use Rattle.leaf_dispatch.specs.Shown.{event_as};
ghost use Rattle.leaf_dispatch.specs.Exits.{HasLeft};

use access_core::word_of_gpa;
use guest_turns::load;
use leaf_engine::{Event, Place};
use leaf_parts::page_told;
use leaf_table::Step;
use step_core::{Bench, WordStep};
use td_words::places::{TDCS_ENTERED, TDR_TDCS, VP_LAST_EPOCH};
use td_words::word_address;
use tlb_epochs::count_at;

/// Takes a virtual processor off the count of the epoch at which it entered, in one event. It answers the
/// parity of that epoch, by which its TD has two counts.
pub fn leave_guest<B: Bench>(place: Place, tdr: u16, vp: u16, bench: &mut B) -> u8
    requires machine { IsMachine place.machine }
    requires at { place.machine ≡ B.machine bench.old }
    requires inside { (tdr < place.machine.pages) × (vp < place.machine.pages) }
    ensures left { HasLeft (B.did bench.old) place.machine tdr vp bench.new result }
    ensures machine { B.machine bench.new ≡ B.machine bench.old }
{
    let word = load(bench, word_address(tdr, TDR_TDCS));
    let tdcs = page_told(place.machine.pages, word);
    let last = load(bench, word_address(vp, VP_LAST_EPOCH));
    let parity = count_at((last % (1 << 32)) as u32);
    let count = word_address(tdcs, TDCS_ENTERED + u16::from(parity));
    bench.perform(WordStep::Add(count, u64::MAX));
    parity
}

/// The event of a turn of a guest's step, whose run made this one: its act is told as what it was, and an
/// exit's with the parity of the epoch whose count it lowered.
pub fn event_told(step: Step, parity: u8, event: Event) -> Event
    ensures { result ≡ event_as parity (event_told (step_told (step_seen step)) event) }
{
    match event {
        Event::Try {
            lock,
            mode,
            granted,
        } => Event::Try {
            lock,
            mode,
            granted,
        },
        Event::Undo(lock) => Event::Undo(lock),
        Event::Free(lock) => Event::Free(lock),
        Event::Act | Event::Walk(_) | Event::Word(_) | Event::Count(_) => act_told(step, parity),
    }
}

fn act_told(step: Step, parity: u8) -> Event
    ensures { result ≡ event_as parity (step_told (step_seen step)) }
{
    match step {
        Step::Operates(_) => Event::Act,
        Step::Accesses { gpa, page, .. } => Event::Word(word_address(page, word_of_gpa(gpa))),
        Step::Loads { level, .. } => Event::Walk(level),
        Step::Leaves(_) => Event::Count(parity),
    }
}
