// One RFCOMM frame: SABM, UIH with a right or a wrong FCS, or neither.
#![tactic(auto)]

ghost use Rattle.std.specs.Prelude.{◌≡◌, true, cond, [], ◌∷◌, ◌/◌, ◌≤◌, ◌<◌, eqb, length};
ghost use Rattle.uih.specs.Fcs.{fcs_of};
ghost use Rattle.uih.specs.Frames.{is_sabm, is_uih};
ghost use Rattle.uih.specs.Reading.{UihPre, FrameIs, LengthIs};

// A UIH frame in a payload: its DLCI, where its information starts, and its length.
#[derive(Clone, Copy)]
pub struct Uih {
    pub dlci: u32,
    pub start: usize,
    pub len: usize,
}

// What a frame is: SABM, UIH, UIH with a wrong FCS where it is checked, or another.
#[derive(Clone, Copy)]
pub enum Frame {
    // the DLCI
    Sabm(u32),
    Uih(Uih),
    WrongFcs(Uih),
    Other,
}

// 0x2F, or 0x3F with the P/F bit.
#[tactic(auto, unfolding(crate::specs::Frames::is_sabm))]
fn is_sabm(control: u8) -> bool
    ensures { result ≡ is_sabm control }
{
    control == 0x2F || control == 0x3F
}

// 0xEF, or 0xFF with the P/F bit.
#[tactic(auto, unfolding(crate::specs::Frames::is_uih))]
fn is_uih(control: u8) -> bool
    ensures { result ≡ is_uih control }
{
    control == 0xEF || control == 0xFF
}

// A length field: how many bytes it has, and its value.
#[derive(Clone, Copy)]
struct Length {
    width: usize,
    value: usize,
}

// The length field, of one byte or two.
#[tactic(auto, unfolding(crate::specs::Frames::info_length, crate::specs::Frames::short_length))]
fn read_length(p: &[u8]) -> Length
    requires { 4 ≤ length p.now }
    ensures { LengthIs p.now result }
{
    let first = p[2] as usize;
    if first % 2 == 1 {
        return Length {
            width: 1,
            value: first / 2,
        };
    }
    Length {
        width: 2,
        value: first / 2 + 128 * (p[3] as usize),
    }
}

// The DLCI of an address byte.
fn dlci_of(address: u8) -> u32
    ensures { (result ≡ address / 4) × (result < 64) }
{
    (address / 4) as u32
}

// The credit byte that a control of 0xFF has.
fn credit_width(control: u8) -> usize
    ensures { (result ≡ cond (eqb control 0xFF) 1 0) × (result ≤ 1) }
{
    usize::from(control == 0xFF)
}

// The check over an address and the control of UIH. Bits are powers of x, the highest bit the first: the address goes on by 16
// of them, as its product with x^4 + x^2 + 1, of which what passes the eighth bit comes back by x^2 + x + 1; all else is a number
// for each control.
fn fcs_of(address: u8, control: u8) -> usize
    requires { is_uih control ≡ true }
    ensures { result ≡ fcs_of (address ∷ control ∷ []) }
{
    let s = 16 * (address as usize);
    let t = s ^ (s / 4) ^ (s / 16);
    let over = 16 * (t % 16);
    let a = (t / 16) ^ over ^ (over / 2) ^ (over / 4);
    if control == 0xFF {
        return a ^ 0xDB;
    }
    a ^ 0xC7
}

// Reads a UIH frame, whose information and FCS must be there. Unchecked, a wrong FCS is not told.
#[tactic(auto, unfolding(crate::specs::Frames::frame_of, crate::specs::Frames::info_start, crate::specs::Frames::is_right, crate::specs::Reading::frame_shown, crate::specs::Reading::seen, crate::specs::Reading::uih_at))]
// Stays: the FCS byte by its place: that it is there is tested before, since a frame without it is none, whether it is checked or not.
fn read_uih(p: &[u8], fcs: bool) -> Frame
    requires { UihPre p.now }
    ensures { FrameIs fcs p.now result }
{
    if p.len() < 4 {
        return Frame::Other;
    }
    let l = read_length(p);
    let start = 2 + l.width + credit_width(p[1]);
    let len = l.value;
    if p.len() <= start + len {
        return Frame::Other;
    }
    let u = Uih {
        dlci: dlci_of(p[0]),
        start,
        len,
    };
    if fcs {
        let found = p[start + len] as usize;
        if found != fcs_of(p[0], p[1]) {
            return Frame::WrongFcs(u);
        }
    }
    Frame::Uih(u)
}

// Reads an RFCOMM frame, with FCS checked or not.
#[tactic(auto, unfolding(crate::specs::Frames::frame_of, crate::specs::Reading::frame_shown, crate::specs::Reading::seen))]
pub fn read_frame(p: &[u8], fcs: bool) -> Frame
    ensures { FrameIs fcs p.now result }
{
    if p.len() < 2 {
        return Frame::Other;
    }
    let control = p[1];
    if is_sabm(control) {
        return Frame::Sabm(dlci_of(p[0]));
    }
    if is_uih(control) {
        return read_uih(p, fcs);
    }
    Frame::Other
}
