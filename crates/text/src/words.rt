// Words and numbers, as the report and the pages append them.
ghost use Rattle.std.specs.Fmt.{decimal};
ghost use Rattle.std.specs.Prelude.{◌≡◌, ◌<◌, ◌++◌, string_bytes, OnOk};

use itoa::Buffer;
use std::alloc::AllocError;

// Appends a digit. Where memory fails nothing is said of the text, here and below.
#[inline(always)]
#[tactic(auto, using(std::proofs::lemmas::Fmt::decimal_digit))]
fn push_digit(text: &mut String, digit: usize) -> Result<(), AllocError>
    requires { digit < 10 }
    ensures { OnOk result (string_bytes text.new ≡ string_bytes text.old ++ decimal digit) }
{
    text.push((b'0' + digit as u8) as char)
}

// Appends a number. One or two digits are pushed: by the buffer the report of a hundred traders takes half as long again.
#[inline(always)]
#[tactic(auto, using(crate::proofs::Digits::digits_pushed))]
fn push_number(text: &mut String, number: usize) -> Result<(), AllocError>
    ensures { OnOk result (string_bytes text.new ≡ string_bytes text.old ++ decimal number) }
{
    if number < 10 {
        return push_digit(text, number);
    }
    if number < 100 {
        push_digit(text, number / 10)?;
        return push_digit(text, number % 10);
    }
    text.push_str(Buffer::new().format(number))
}

// Appends a word and a number.
#[inline(always)]
pub(crate) fn push_word(text: &mut String, word: &str, number: usize) -> Result<(), AllocError>
    ensures { OnOk result (string_bytes text.new ≡ string_bytes text.old ++ (word.now ++ decimal number)) }
{
    text.push_str(word)?;
    push_number(text, number)
}
