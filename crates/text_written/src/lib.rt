// Numbers and bytes as text, put on a sheet: for every program that writes them. Every public function takes any input.
// Kept (4): no `write!` to the sheet: a clause knows which bytes a format wrote only where they went to a `String`, which the heap would hold.
#![tactic(auto, using(text_pen::proofs::Turns::sheets))]

ghost use Rattle.std.specs.Prelude.{◌≡◌, ◌≤◌, ◌<◌, [], ◌∷◌};
ghost use Rattle.text_numbers.specs.Numbers.{glyph_of, numeral};
ghost use Rattle.text_pen.specs.Pens.{Wrote};
ghost use Rattle.text_written.specs.Words.{hex_words, signed_words};

use text_pen::Sheet;

// A digit's character.
#[tactic(auto, using(text_numbers::proofs::Digits::low_glyph, text_numbers::proofs::Digits::high_glyph))]
fn glyph(d: u8) -> u8
    requires { d < 16 }
    ensures { result ≡ glyph_of d }
{
    if d < 10 { b'0' + d } else { b'a' + (d - 10) }
}

// 2^64 - 1 has 20 decimal digits.
const PLACES: usize = 20;

// The fewest digits that spell n in base.
// Kept (3): a turn goes on by what is left of n, and `at` only says where the digits before stand. The library states no end of
// `iter::successors`.
// Kept (6): the digits come last first, and are gathered before they are put; there is no heap.
fn put_number(sheet: &mut Sheet, n: u64, base: u64)
    requires { (10 ≤ base) × (base ≤ 16) }
    ensures { Wrote sheet.old (numeral base n ∷ []) sheet.new }
{
    let mut t = [0u8; PLACES];
    let mut at = PLACES;
    let mut rest = n;
    while rest >= base {
        at -= 1;
        t[at] = glyph((rest % base) as u8);
        rest /= base;
    }
    at -= 1;
    t[at] = glyph(rest as u8);
    sheet.put(&t[at..]);
}

pub fn put_decimal(sheet: &mut Sheet, n: u64)
    ensures { Wrote sheet.old (numeral 10 n ∷ []) sheet.new }
{
    put_number(sheet, n, 10);
}

pub fn put_hexadecimal(sheet: &mut Sheet, n: u64)
    ensures { Wrote sheet.old (numeral 16 n ∷ []) sheet.new }
{
    put_number(sheet, n, 16);
}

// `-` where v is below 0, and then how far it is from 0.
pub fn put_signed(sheet: &mut Sheet, v: i64)
    ensures { Wrote sheet.old (signed_words v) sheet.new }
{
    if v < 0 {
        sheet.put(b"-");
    }
    put_decimal(sheet, v.unsigned_abs());
}

// Two digits for each byte, `-` when there are none.
pub fn put_hex(sheet: &mut Sheet, src: &[u8])
    ensures { Wrote sheet.old (hex_words src.now) sheet.new }
{
    if src.is_empty() {
        sheet.put(b"-");
        return;
    }
    for &x in src {
        sheet.put(&[glyph(x / 16), glyph(x % 16)]);
    }
}
