// Tags: the value representations (VR) of rule 5.10 and the tags of rule 5.14 (docs/RULES.md).
#![tactic(auto)]

ghost use Rattle.std.specs.Prelude.{◌≡◌};
ghost use Rattle.tags.specs.Table.{named, forms, entry, given, named_vr, form_of};

use choice::Row;

// A VR is its two letters as they stand in the bytes: a 16-bit number, little endian.
pub const AE: u32 = 0x4541;

pub const AS: u32 = 0x5341;

pub const AT: u32 = 0x5441;

pub const CS: u32 = 0x5343;

pub const DA: u32 = 0x4144;

pub const DS: u32 = 0x5344;

pub const DT: u32 = 0x5444;

pub const FD: u32 = 0x4446;

pub const FL: u32 = 0x4C46;

pub const IS: u32 = 0x5349;

pub const LO: u32 = 0x4F4C;

pub const LT: u32 = 0x544C;

pub const OB: u32 = 0x424F;

pub const OF: u32 = 0x464F;

pub const OW: u32 = 0x574F;

pub const PN: u32 = 0x4E50;

pub const SH: u32 = 0x4853;

pub const SL: u32 = 0x4C53;

pub const SQ: u32 = 0x5153;

pub const SS: u32 = 0x5353;

pub const ST: u32 = 0x5453;

pub const TM: u32 = 0x4D54;

pub const UI: u32 = 0x4955;

pub const UL: u32 = 0x4C55;

pub const UN: u32 = 0x4E55;

pub const US: u32 = 0x5355;

pub const UT: u32 = 0x5455;

// "form one table of 35 rows": the named tags, each with its VR.
const NAMED: [Row; 35] = [
    Row(0x0000_0000, UL),
    Row(0x0000_0002, UI),
    Row(0x0000_0003, UI),
    Row(0x0000_0100, US),
    Row(0x0000_0110, US),
    Row(0x0000_0120, US),
    Row(0x0000_0800, US),
    Row(0x0000_0900, US),
    Row(0x0000_1000, UI),
    Row(0x0000_1001, UI),
    Row(0x0000_1008, US),
    Row(0x0008_1150, UI),
    Row(0x0008_1155, UI),
    Row(0x0028_0002, US),
    Row(0x0028_0004, CS),
    Row(0x0028_0010, US),
    Row(0x0028_0011, US),
    Row(0x0028_0100, US),
    Row(0x0028_0101, US),
    Row(0x0028_0102, US),
    Row(0x0028_0103, US),
    Row(0x2000_0010, IS),
    Row(0x2000_0020, CS),
    Row(0x2000_0030, CS),
    Row(0x2000_0040, CS),
    Row(0x2000_0050, LO),
    Row(0x2010_0010, ST),
    Row(0x2010_0040, CS),
    Row(0x2010_0060, CS),
    Row(0x2010_0500, SQ),
    Row(0x2010_0510, SQ),
    Row(0x2020_0010, US),
    Row(0x2020_0020, CS),
    Row(0x2020_0110, SQ),
    Row(0x7FE0_0010, OW),
];

// The known VRs, each with the size of its explicit header.
const FORMS: [Row; 27] = [
    Row(AE, 8),
    Row(AS, 8),
    Row(AT, 8),
    Row(CS, 8),
    Row(DA, 8),
    Row(DS, 8),
    Row(DT, 8),
    Row(FD, 8),
    Row(FL, 8),
    Row(IS, 8),
    Row(LO, 8),
    Row(LT, 8),
    Row(OB, 12),
    Row(OF, 12),
    Row(OW, 12),
    Row(PN, 8),
    Row(SH, 8),
    Row(SL, 8),
    Row(SQ, 12),
    Row(SS, 8),
    Row(ST, 8),
    Row(TM, 8),
    Row(UI, 8),
    Row(UL, 8),
    Row(UN, 12),
    Row(US, 8),
    Row(UT, 12),
];

// Each table as a value: the proof of a look-up then rests on what is known of the rows, and not on the rows.
fn named() -> [Row; 35]
    ensures { result ≡ named }
{
    NAMED
}

fn forms() -> [Row; 27]
    ensures { result ≡ forms }
{
    FORMS
}

// What a table has for a key. The table comes as a value, and not as a slice: of one that is constant the compiler makes
// tests alone, and a walk of elements takes a third of the time.
fn look_up<const N: usize>(rows: [Row; N], key: usize) -> Option<usize>
    ensures { result ≡ entry key rows.entry }
{
    for row in rows {
        if row.0 as usize == key {
            return Some(row.1 as usize);
        }
    }
    None
}

// The size of the explicit header of a VR that is known.
pub fn form_of(vr: usize) -> Option<usize>
    ensures { result ≡ given (form_of vr) }
{
    look_up(forms(), vr)
}

// The VR of a named tag.
pub fn named_vr(tag: usize) -> Option<usize>
    ensures { result ≡ given (named_vr tag) }
{
    look_up(named(), tag)
}
