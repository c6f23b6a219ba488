// Document 01, "Refusal numbers in checking order": the checks with their numbers, and what a packet is answered.
#![tactic(auto)]

ghost use Rattle.std.specs.Prelude.{◌≡◌, Err};
ghost use Rattle.checks.specs.Verdict.{check_number, refusal, number_of, detail_of, silent};

// The checks, in checking order.
#[derive(Clone, Copy)]
pub enum Check {
    // The output buffer is below 4,096 octets.
    Buffer,
    // The profile is not sound, the store odd or too long, or a count handed in above 16,383.
    Caller,
    // Fewer than 6 octets received.
    Short,
    // The received count is below 12, above 248, or not the length field plus 7.
    Length,
    // The error control is wrong.
    Control,
    // Version, type bit, header flag, sequence flags or PUS version.
    Header,
    // The APID is not the profile's PID with category 12.
    Apid,
    // The type is neither 6 nor 17, or no flag of that type is set.
    Service,
    // The subtype is not known, or its flag is off.
    Subtype,
    // The application data is not well formed.
    Form,
    // No area has that memory ID.
    Memory,
    // The area lacks the right.
    Right,
    // A block is not wholly inside the area.
    Outside,
}

// A check that failed, and its detail; 0 where it has none.
#[derive(Clone, Copy)]
pub struct Refusal {
    pub check: Check,
    pub detail: u16,
}

// What a packet is answered: acceptance, or the refusal of the first check that fails.
pub type Verdict = Result<(), Refusal>;

// The first of the numbers whose refusals give no frame.
const SILENT: u16 = 40;

// The number of a check.
impl From<Check> for u16 {
    ghost from_gives = { λ check number. number ≡ check_number check };

    fn from(check: Check) -> u16 {
        match check {
            Check::Buffer => 40,
            Check::Caller => 41,
            Check::Short => 42,
            Check::Length => 1,
            Check::Control => 2,
            Check::Header => 16,
            Check::Apid => 0,
            Check::Service => 3,
            Check::Subtype => 4,
            Check::Form => 5,
            Check::Memory => 17,
            Check::Right => 18,
            Check::Outside => 19,
        }
    }
}

// The refusal of a check that failed, whatever is answered where none does.
pub fn refuse<T>(check: Check, detail: u16) -> Result<T, Refusal>
    ensures { result ≡ Err (refusal check detail) }
{
    Err(Refusal { check, detail })
}

// The number of a refusal, and 0 of acceptance.
pub fn number(v: Verdict) -> u16
    ensures { result ≡ number_of v }
{
    match v {
        Ok(()) => 0,
        Err(refusal) => refusal.check.into(),
    }
}

// The detail of a refusal, and 0 where it has none.
pub fn detail(v: Verdict) -> u16
    ensures { result ≡ detail_of v }
{
    match v {
        Ok(()) => 0,
        Err(refusal) => refusal.detail,
    }
}

// Whether a verdict gives no frame: 40, 41 and 42.
pub fn is_silent(v: Verdict) -> bool
    ensures { result ≡ silent v }
{
    SILENT <= number(v)
}
