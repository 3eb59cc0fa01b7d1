// Syntaxes: the VR and the header of an element in implicit and in explicit VR.
#![tactic(auto)]

ghost use Rattle.std.specs.Prelude.{◌≡◌, ◌+◌, ◌≤◌, true, false, length};
ghost use Rattle.octets.specs.Octets.{number_at};
ghost use Rattle.tags.specs.Table.{form_of, implicit_vr, differs};
ghost use Rattle.headers.specs.declared.Syntax.TheVariants.{Implicit, Explicit};
ghost use Rattle.headers.specs.Header.{head_at};

use headers::{Head, Syntax, length_head, tag_at};
use octets::{u16_at, u32_at};
use tags::{OB, SQ, UN, form_of, named_vr};

// The VR of an element in implicit VR, by its tag and length.
fn implicit_vr(tag: usize, length: usize) -> usize
    ensures { result ≡ implicit_vr tag length }
{
    if let Some(named) = named_vr(tag) {
        return named;
    }
    if length == 0xFFFF_FFFF {
        return SQ as usize;
    }
    UN as usize
}

// Whether a VR is not that of the named tag that bears it.
fn vr_differs(tag: usize, vr: usize) -> bool
    ensures { result ≡ differs tag vr }
{
    let Some(named) = named_vr(tag) else {
        return false;
    };
    named != vr && !(tag == 0x7FE0_0010 && vr == OB as usize)
}

// The header of an element in implicit VR.
fn implicit_head(s: &[u8], end: usize, at: usize, floor: usize) -> Head
    requires { (at + 8 ≤ end) × (end ≤ length s.now) × (number_at 2 s.now at ≡ 0xFFFE → ⊥) }
    ensures { result ≡ head_at s.now Implicit end at floor }
{
    let tag = tag_at(s, at);
    if tag < floor {
        return Head::Fault(3);
    }
    let length = u32_at(s, at + 4);
    length_head(at + 8, end, implicit_vr(tag, length), length)
}

// The header of an element in explicit VR with a long-form VR.
fn long_head(s: &[u8], end: usize, at: usize, floor: usize) -> Head
    requires in_place { (at + 8 ≤ end) × (end ≤ length s.now) × (number_at 2 s.now at ≡ 0xFFFE → ⊥) }
    requires long_form { form_of (number_at 2 s.now (at + 4)) ≡ 12 }
    ensures { result ≡ head_at s.now Explicit end at floor }
{
    if end - at < 12 {
        return Head::Fault(1);
    }
    let tag = tag_at(s, at);
    if tag < floor {
        return Head::Fault(3);
    }
    if u16_at(s, at + 6) != 0 {
        return Head::Fault(4);
    }
    let vr = u16_at(s, at + 4);
    if vr_differs(tag, vr) {
        return Head::Fault(4);
    }
    length_head(at + 12, end, vr, u32_at(s, at + 8))
}

// The header of an element in explicit VR.
fn explicit_head(s: &[u8], end: usize, at: usize, floor: usize) -> Head
    requires { (at + 8 ≤ end) × (end ≤ length s.now) × (number_at 2 s.now at ≡ 0xFFFE → ⊥) }
    ensures { result ≡ head_at s.now Explicit end at floor }
{
    let vr = u16_at(s, at + 4);
    let form = form_of(vr);
    if form == Some(12) {
        return long_head(s, end, at, floor);
    }
    let tag = tag_at(s, at);
    if tag < floor {
        return Head::Fault(3);
    }
    if form.is_none() || vr_differs(tag, vr) {
        return Head::Fault(4);
    }
    length_head(at + 8, end, vr, u16_at(s, at + 6))
}

// The header of an element, whose tag must not be below `floor`.
pub fn element_head(s: &[u8], syntax: Syntax, end: usize, at: usize, floor: usize) -> Head
    requires { (at ≤ end) × (end ≤ length s.now) }
    ensures { result ≡ head_at s.now syntax end at floor }
{
    if end - at < 8 {
        return Head::Fault(1);
    }
    if u16_at(s, at) == 0xFFFE {
        return Head::Fault(6);
    }
    match syntax {
        Syntax::Implicit => implicit_head(s, end, at, floor),
        Syntax::Explicit => explicit_head(s, end, at, floor),
    }
}
