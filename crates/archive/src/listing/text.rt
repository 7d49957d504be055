ghost use Rattle.std.specs.Prelude.{◌≡◌, ◌+◌, ◌≤◌, [], ◌∷◌, ◌++◌, length};
ghost use Rattle.std.specs.Fmt.{signed_decimal};
ghost use Rattle.arrayvec.specs.ArrayString.{array_string_len};
ghost use Rattle.archive.specs.Sums.{Small};
ghost use Rattle.archive.specs.Listing.{text_of};

use crate::sums::HourSums;
use arrayvec::ArrayString;
use itoa::Buffer;

// Holds any listing.
pub(crate) type Text = ArrayString<720>;

// Appends a line `name sum`; not by `write!`, which by its contract may fail, and then the listing's answer would not be
// known. Inlined, so that it is plain that name and text do not overlap: a copy that might overlap would have the library
// for C hosts ask its host for one more function.
#[inline(always)]
fn push_line(text: &mut Text, name: &str, sum: i64)
    requires { array_string_len text.old + length name.now + 1 + length (signed_decimal sum) + 1 ≤ 720 }
    ensures { text.new.bytes ≡ text.old.bytes ++ (name.now ++ (32 ∷ (signed_decimal sum ++ 10 ∷ []))) }
{
    text.push_str(name);
    text.push(' ');
    text.push_str(Buffer::new().format(sum));
    text.push('\n');
}

// The lines of the sums: of each supplier whose sum is not 0, and of the zone.
pub(crate) fn text_of(sums: &HourSums) -> Text
    requires { Small sums.now.suppliers sums.now.zone }
    ensures { result.bytes ≡ text_of sums.now.suppliers sums.now.zone }
{
    let mut text = Text::new();
    for (i, sum) in sums.suppliers.iter().enumerate() {
        if *sum != 0 {
            push_line(&mut text, Buffer::new().format(i + 1), *sum);
        }
    }
    push_line(&mut text, "zone", sums.zone);
    text
}
