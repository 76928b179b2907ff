//! MR.FINALIZE.

ghost use Rattle.std.specs.Prelude.{◌≡◌, ◌<◌};
ghost use Rattle.flat_core.specs.Digests.{digest_word};
ghost use Rattle.leaf_engine.specs.Changes as memory;
ghost use Rattle.leaf_engine.specs.Decides.{IsHand};
ghost use Rattle.td_control.specs.FinalTrees.{word_in_hand};

use leaf_engine::{Act, Hand, Place, Plan, Stop, Told, Verdict, Write};
use leaf_parts::{VpWord, hkid_slot, td_head, vps_apart};
use td_words::places::{TDCS_MRTD, TDCS_OP, TDR_HKID, VP_STATE};
use td_words::{Mode, OpState, Status, VcpuState, word_address};

/// MR.FINALIZE TDR: the measurement of a TD ends, and its virtual processors may run.
#[derive(Drop)]
pub struct Finalize {
    place: Place,
    tdr: u64,
}

impl Finalize {
    ghost use Rattle.std.specs.Prelude.{◌≡◌};
    ghost use Rattle.td_control.specs.FinalTrees.{finalize_task};

    /// The plan of a call at a place.
    pub fn plan(place: Place, tdr: u64) -> Finalize
        ensures { ⟦<Finalize as Plan>⟧.task result ≡ finalize_task place tdr }
    {
        Finalize { place, tdr }
    }
}

impl Plan for Finalize {
    ghost use Rattle.std.specs.Prelude.{nat_lt};
    ghost use Rattle.td_control.specs.FinalTrees.{finalize_task, final_changes};
    ghost use Rattle.td_control.specs.FinalMeanings.{finalize-means};

    ghost task = { λ l. finalize_task l.place l.tdr };

    ghost changes = { λ l told a. final_changes l.place.machine a.page a.hkid };

    ghost shown = { λ l told a. nat_lt a.page l.place.machine.pages };

    fn decide(&self, told: Told) -> Result<Verdict, Stop> {
        let mut told = told;
        told.check(
            self.tdr < u64::from(self.place.machine.pages),
            Status::OperandInvalid(1),
        )?;
        let tdr = self.tdr as u16;
        let td = td_head(
            &mut told,
            self.place,
            tdr,
            Mode::Exclusive,
            &[OpState::Initialized],
        )?;
        let tdcs = td.tdcs;
        let hkid = told.load(word_address(tdr, TDR_HKID))?;
        let ready = VpWord {
            tdcs,
            at: VP_STATE,
            word: VcpuState::Ready as u64,
        };
        let created = vps_apart(&mut told, self.place.machine, ready)?;
        told.check(created == 0, Status::VcpuStateIncorrect(VcpuState::Created))?;
        Ok(Verdict::done(Act {
            page: tdcs,
            hkid,
            ..Act::NONE
        }))
    }

    // The hasher is taken out of its slot, then the words of its digest are stored, and the operation
    // state.
    fn write(&self, act: Act, _told: &[u64], number: usize, hand: &mut Hand) -> Option<Write> {
        let slot = hkid_slot(self.place.machine, act.hkid)?;
        let write = match number {
            0 => Write::Swap(slot),
            1..=6 => {
                let k = number - 1;
                let at = word_address(act.page, TDCS_MRTD + k as u16);
                Write::store(at, word_in_hand(hand, k))
            }
            7 => Write::store(word_address(act.page, TDCS_OP), OpState::Runnable as u64),
            _ => return None,
        };
        Some(write)
    }

    ghost means = { λ l. finalize-means l.place l.tdr };
}

/// The digest's word of that number, of what the hasher in hand has measured.
fn word_in_hand(hasher: &Hand, k: usize) -> u64
    requires { k < 6 }
    ensures { (hand : memory.Hand) → IsHand hasher.now hand → result ≡ word_in_hand k hand }
{
    match hasher {
        Some(measure) => digest_word(&measure.digest(), k),
        None => 0,
    }
}

/// The word of that number among a digest's.
fn digest_word(digest: &[u8; 48], k: usize) -> u64
    requires { k < 6 }
    ensures { result ≡ digest_word digest.now k }
{
    let mut bytes = [0; 8];
    bytes.copy_from_slice(&digest[8 * k..8 * k + 8]);
    u64::from_le_bytes(bytes)
}
