//! PHYMEM.PAGE.RDMD.

ghost use Rattle.std.specs.Prelude.{◌≡◌, ◌≤◌};
ghost use Rattle.td_words.specs.Packing.{pamt_in};
ghost use Rattle.mem_remove.specs.Words.{metadata};

use leaf_engine::{Act, Hand, Place, Plan, Stop, Told, Verdict, Write};
use pamt_core::PamtWord;
use td_words::{LockName, Mode, Status, Value, lock_address, pamt_address};

/// PHYMEM.PAGE.RDMD PAGE: what the page is used for, its owner and BEPOCH.
#[derive(Drop)]
pub struct Rdmd {
    place: Place,
    page: u64,
    ghost few_pages: { place.machine.pages ≤ 1024 },
}

impl Rdmd {
    ghost use Rattle.std.specs.Prelude.{◌≡◌, ◌≤◌};
    ghost use Rattle.mem_remove.specs.MetadataTrees.{rdmd_task};

    /// The plan of a call at a place.
    pub fn plan(place: Place, page: u64) -> Rdmd
        requires { place.machine.pages ≤ 1024 }
        ensures { ⟦<Rdmd as Plan>⟧.task result ≡ rdmd_task place page }
    {
        Rdmd { place, page }
    }
}

impl Plan for Rdmd {
    ghost use Rattle.std.specs.Prelude.{true, []};
    ghost use Rattle.mem_remove.specs.MetadataTrees.{rdmd_task};
    ghost use Rattle.mem_remove.specs.MetadataMeanings.{rdmd-means};

    ghost task = { λ l. rdmd_task l.place l.page };

    ghost changes = { λ l told a. [] };

    ghost shown = { λ l told a. true };

    fn decide(&self, told: Told) -> Result<Verdict, Stop> {
        let mut told = told;
        let pages = self.place.machine.pages;
        told.check(self.page < u64::from(pages), Status::OperandInvalid(1))?;
        let page = self.page as u16;
        told.lock(LockName::Page(page), lock_address(page), Mode::Shared)?;
        let pamt = told.load(pamt_address(page))?;
        Ok(Verdict::answer(metadata(pamt)))
    }

    fn write(&self, _act: Act, _told: &[u64], _number: usize, _hand: &mut Hand) -> Option<Write> {
        None
    }

    ghost means = { λ l. rdmd-means l.place l.page l.few_pages };
}

/// What a PAMT word says. A word that packs nothing never stands in the PAMT.
fn metadata(pamt: u64) -> Value
    ensures { result ≡ metadata (pamt_in pamt) }
{
    match PamtWord::unpack(pamt) {
        Some(PamtWord { kind, owner, epoch }) => Value::Page { kind, owner, epoch },
        None => Value::Nothing,
    }
}
