//! The values of members.
ghost use Rattle.std.specs.Prelude.{◌≡◌, ◌^◌, ◌<◌, ◌≤◌, option_map, option_and_then, MatchResult, IfOk, Ok, Err};
ghost use Rattle.json.specs.Find.{as_str};
ghost use Rattle.json.specs.Value.{value_view};
ghost use Rattle.abt_entry.specs.Values.{find, member_at, whole_below, whole_of, whole_at, rate_as, rate_at, truth_at};
ghost use Rattle.abt_format.specs.Values.{rate_of};

use crate::digits::digits_of;
use crate::fault::LineFault;
use crate::member::Member;
use abt_format::rate_of;
use abt_rate::Rate;
use json::Value;

/// The value of a member, if there is one.
pub fn find<'v, 'a>(value: &'v Value<'a>, member: Member) -> Option<&'v Value<'a>>
    ensures { option_map (λ found. value_view found.now) result ≡ find member (value_view value.entry.now) }
{
    value.get(member.name())
}

/// The value of a member that has to be there.
pub fn member_at<'v, 'a>(value: &'v Value<'a>, member: Member) -> Result<&'v Value<'a>, LineFault>
    ensures { let exact = member_at member (value_view value.entry.now) in
        MatchResult result (λ found. exact ≡ Ok (value_view found.now)) (λ fault. exact ≡ Err fault) }
{
    match find(value, member) {
        Some(found) => Ok(found),
        None => Err(LineFault::Member(member)),
    }
}

/// The number of 64 bits that a value is.
pub fn whole_in(value: &Value<'_>) -> Option<u64>
    ensures { result ≡ whole_below (2 ^ 64) (value_view value.now) }
{
    let digits = value.as_number()?;
    u64::try_from(digits_of(digits.as_bytes())?).ok()
}

/// The number of 64 bits that the value of a member is.
pub fn number_of(value: &Value<'_>, member: Member) -> Result<u64, LineFault>
    ensures { result ≡ whole_of (2 ^ 64) member (value_view value.now) }
{
    match whole_in(value) {
        Some(number) => Ok(number),
        None => Err(LineFault::Member(member)),
    }
}

/// The number of 64 bits that a member is.
pub fn number_at(value: &Value<'_>, member: Member) -> Result<u64, LineFault>
    ensures { result ≡ whole_at (2 ^ 64) member (value_view value.now) }
{
    number_of(member_at(value, member)?, member)
}

/// The number below a limit of 32 bits that the value of a member is.
pub fn long_of(value: &Value<'_>, member: Member, limit: u64) -> Result<u32, LineFault>
    requires { limit ≤ 2 ^ 32 }
    ensures value { result ≡ whole_of limit member (value_view value.now) }
    ensures within { IfOk result (λ number. number < limit) }
{
    match whole_in(value) {
        Some(number) if number < limit => Ok(number as u32),
        _ => Err(LineFault::Member(member)),
    }
}

/// The number below a limit of 32 bits that a member is.
pub fn long_at(value: &Value<'_>, member: Member, limit: u64) -> Result<u32, LineFault>
    requires { limit ≤ 2 ^ 32 }
    ensures value { result ≡ whole_at limit member (value_view value.now) }
    ensures within { IfOk result (λ number. number < limit) }
{
    long_of(member_at(value, member)?, member, limit)
}

/// The number below a limit of 16 bits that the value of a member is.
pub fn short_of(value: &Value<'_>, member: Member, limit: u64) -> Result<u16, LineFault>
    requires { limit ≤ 2 ^ 16 }
    ensures value { result ≡ whole_of limit member (value_view value.now) }
    ensures within { IfOk result (λ number. number < limit) }
{
    let number = long_of(value, member, limit)?;
    Ok(number as u16)
}

/// The number below a limit of 16 bits that a member is.
pub fn short_at(value: &Value<'_>, member: Member, limit: u64) -> Result<u16, LineFault>
    requires { limit ≤ 2 ^ 16 }
    ensures value { result ≡ whole_at limit member (value_view value.now) }
    ensures within { IfOk result (λ number. number < limit) }
{
    let number = long_at(value, member, limit)?;
    Ok(number as u16)
}

// The rate that a value is, a text of four hexadecimal digits.
fn rate_in(value: &Value<'_>) -> Option<Rate>
    ensures { result ≡ option_and_then rate_of (as_str (value_view value.now)) }
{
    rate_of(value.as_str()?)
}

/// The rate whose code the value of a member is.
pub fn rate_as(value: &Value<'_>, member: Member) -> Result<Rate, LineFault>
    ensures { result ≡ rate_as member (value_view value.now) }
{
    match rate_in(value) {
        Some(rate) => Ok(rate),
        None => Err(LineFault::Member(member)),
    }
}

/// The rate whose code a member is.
pub fn rate_at(value: &Value<'_>, member: Member) -> Result<Rate, LineFault>
    ensures { result ≡ rate_at member (value_view value.now) }
{
    rate_as(member_at(value, member)?, member)
}

/// The truth that a member is.
pub fn truth_at(value: &Value<'_>, member: Member) -> Result<bool, LineFault>
    ensures { result ≡ truth_at member (value_view value.now) }
{
    let found = member_at(value, member)?;
    match found.as_bool() {
        Some(truth) => Ok(truth),
        None => Err(LineFault::Member(member)),
    }
}
