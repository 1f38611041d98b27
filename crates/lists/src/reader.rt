// How far lists have been read, from front to back.
ghost use Rattle.std.specs.Prelude.{◌≡◌, ℕ, ◌<◌, ◌≤◌, length, replicate, slice_index, slice_set, OnOk};
ghost use Rattle.lists.specs.Format.{length_fault, list_fault, number_at, stand_fault, unless};

use crate::bytes::number_in;
use crate::reading::MOST_STANDS;
use refusals::Refusal;

#[derive(Drop)]
pub(crate) struct Reader<'a> {
    pub(crate) bytes: &'a [u8],
    // the next byte: kept as a place, since refusals tell it
    pub(crate) at: usize,
    // how many stands exist
    pub(crate) stands: u16,
    // the mark of the last list that named each stand, so that a look at one entry tells a stand named twice; in fixed memory, as a
    // library crate takes no heap
    pub(crate) marks: [u16; 4000],
    pub(crate) ghost room: { stands ≤ length marks },
}

impl<'a> Reader<'a> {
    ghost use Rattle.lists.specs.Reads.{Read, ReadList, is_marked};

    // Before byte `at`, with no list read.
    pub(crate) fn new(bytes: &'a [u8], at: usize, stands: u16) -> Reader<'a>
        requires { stands ≤ 4000 }
        ensures { (result.bytes.now ≡ bytes.now) × (result.at ≡ at) × (result.stands ≡ stands) × (result.marks ≡ replicate 4000 0) }
    {
        Reader {
            bytes,
            at,
            stands,
            marks: [0; 4000],
        }
    }

    // The count of the next list.
    fn count(&mut self) -> Result<u8, Refusal>
        ensures answer { result ≡ unless (length_fault self.old.bytes.now self.old.at) (slice_index self.old.bytes.now self.old.at) }
        ensures next { OnOk result (Read self.old self.new 1 self.old.marks) }
    {
        let Some(&count) = self.bytes.get(self.at) else {
            return Err(Refusal::WrongLength {
                at: self.bytes.len(),
            });
        };
        if count > MOST_STANDS {
            return Err(Refusal::LongList { at: self.at });
        }
        self.at += 1;
        Ok(count)
    }

    // The next stand of trader own's list, which marks the stands that it names.
    fn stand(&mut self, own: u16, mark: u16) -> Result<(), Refusal>
        ensures answer { result ≡ unless (stand_fault self.old.bytes.now self.old.stands own self.old.at (is_marked self.old mark (number_at self.old.bytes.now self.old.at))) tt }
        ensures next { OnOk result (Read self.old self.new 2 (slice_set self.old.marks (number_at self.old.bytes.now self.old.at) mark)) }
    {
        let at = self.at;
        let Some(stand) = number_in(self.bytes, at) else {
            return Err(Refusal::WrongLength {
                at: self.bytes.len(),
            });
        };
        if stand >= self.stands || stand == own || self.marks[stand as usize] == mark {
            return Err(Refusal::WrongStand { at });
        }
        self.marks[stand as usize] = mark;
        self.at += 2;
        Ok(())
    }

    // The next list, trader own's. All marks of lists read before are smaller than `mark`.
    pub(crate) fn list(&mut self, own: u16, mark: u16) -> Result<(), Refusal>
        requires fresh { (t : ℕ) → slice_index self.old.marks t < mark }
        ensures answer { result ≡ unless (list_fault self.old.bytes.now self.old.stands own self.old.at) tt }
        ensures next { OnOk result (ReadList self.old self.new mark) }
    {
        let count = self.count()?;
        for _ in 0..count {
            self.stand(own, mark)?;
        }
        Ok(())
    }
}
