// The entries of a sheet, one for each trader; bytes that are missing count as 0.
ghost use Rattle.std.specs.Prelude.{◌≡◌};
ghost use Rattle.sheet.specs.Exchange.{entry_put};
ghost use Rattle.sheet.specs.Sheet.{round_in, stand_in};

use lists::bytes::number_at;

// The stand that a trader got.
pub fn stand_in(sheet: &[u8], trader: u16) -> u16
    ensures { result ≡ stand_in sheet.now trader }
{
    number_at(sheet, 4 * trader as usize)
}

// The round in which a trader went out.
pub fn round_in(sheet: &[u8], trader: u16) -> u16
    ensures { result ≡ round_in sheet.now trader }
{
    number_at(sheet, 4 * trader as usize + 2)
}

// Writes an entry at byte `at`: the stand got and the round, low byte first. Where there is no room for it nothing is written.
#[tactic(auto, using(crate::proofs::Writing::entry_copied, crate::proofs::Writing::low_byte_first))]
pub fn write_entry(sheet: &mut [u8], at: usize, stand: u16, round: u16)
    ensures { sheet.new ≡ entry_put sheet.old at stand round }
{
    if sheet.len() < 4 || at > sheet.len() - 4 {
        return;
    }
    let [a, b] = stand.to_le_bytes();
    let [c, d] = round.to_le_bytes();
    sheet[at..at + 4].copy_from_slice(&[a, b, c, d]);
}
