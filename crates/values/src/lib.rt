// Values: codes and numbers as the book reads them.
#![tactic(auto)]

ghost use Rattle.std.specs.Prelude.{◌≡◌, ◌<◌, length};
ghost use Rattle.std.specs.Option.{unwrap_or, is_some};
ghost use Rattle.rules.specs.Values.{code_in, us_in};
ghost use Rattle.rules.specs.Attributes.{code_allowed};
ghost use Rattle.values.specs.Codes.{texts_of, code_texts};

// The attributes that hold one of a few texts.
#[derive(Clone, Copy)]
pub enum Code {
    Priority,
    Medium,
    Destination,
    Orientation,
    Magnification,
    Polarity,
    Photometric,
}

const PRIORITIES: [&[u8]; 3] = [b"LOW", b"MED", b"HIGH"];

const MEDIA: [&[u8]; 3] = [b"PAPER", b"CLEAR FILM", b"BLUE FILM"];

const DESTINATIONS: [&[u8]; 2] = [b"MAGAZINE", b"PROCESSOR"];

const ORIENTATIONS: [&[u8]; 2] = [b"PORTRAIT", b"LANDSCAPE"];

const MAGNIFICATIONS: [&[u8]; 4] = [b"NONE", b"REPLICATE", b"BILINEAR", b"CUBIC"];

const POLARITIES: [&[u8]; 2] = [b"NORMAL", b"REVERSE"];

const PHOTOMETRICS: [&[u8]; 2] = [b"MONOCHROME1", b"MONOCHROME2"];

// The texts of a code, in the book's order.
#[tactic(auto, unfolding(rules::specs::Text::chars))]
pub fn code_texts(code: Code) -> &'static [&'static [u8]]
    ensures { texts_of result.now ≡ code_texts code }
{
    match code {
        Code::Priority => &PRIORITIES,
        Code::Medium => &MEDIA,
        Code::Destination => &DESTINATIONS,
        Code::Orientation => &ORIENTATIONS,
        Code::Magnification => &MAGNIFICATIONS,
        Code::Polarity => &POLARITIES,
        Code::Photometric => &PHOTOMETRICS,
    }
}

// The place of a code's value among its texts.
pub fn code_in(code: Code, s: &[u8]) -> Option<usize>
    ensures place { unwrap_or result (length (code_texts code)) ≡ code_in (code_texts code) s.now }
    ensures known { is_some result ≡ code_allowed (code_texts code) s.now }
{
    let value = texts::trimmed(s);
    code_texts(code)
        .iter()
        .position(|text| octets::same_bytes(text, value))
}

// US: the number of the first two bytes; bytes that are not there count as 0.
#[tactic(auto, using(crate::proofs::Octets::behind_end, crate::proofs::Octets::one_byte))]
pub fn us_in(s: &[u8]) -> u16
    ensures { (result ≡ us_in s.now) × (result < 65536) }
{
    match s {
        [] => 0,
        [only] => u16::from(*only),
        _ => octets::u16_at(s, 0) as u16,
    }
}
