//! What a program in Rust calls, on numbers and byte slices: both clock rules, and the listing of a script.
#![tactic(auto)]

ghost use Rattle.std.specs.Prelude.{◌≡◌, ℕ, pos, take};
ghost use Rattle.stamps.specs.Clocks.{raw_rule, hybrid_rule};
ghost use Rattle.stamps.specs.Outside.{stamp_from, signed_number};
ghost use Rattle.script.specs.Laws.{IsListing};
ghost use Rattle.script.specs.Scripts.{listing_into};
ghost use Rattle.price_store_c.specs.Signed.{with_signed_number};

use script::list::list_into;
use stamps::hybrid::Hybrid;
use stamps::outside::signed_stamp;
use stamps::raw::Raw;

/// The stamp that the raw rule answers to a last stamp, a reading and the stamp of a dependency, or minus the refusal's
/// number: -3 if one of them is out of its range, -7 if it is too early.
#[unsafe(no_mangle)]
pub extern "C" fn raw_stamp(last: u64, reading: u64, dependency: u64) -> i64
    ensures { result ≡ signed_number (stamp_from raw_rule last reading dependency) }
{
    signed_stamp::<Raw>(last, reading, dependency)
}

/// The stamp that the hybrid rule answers to a last stamp, a reading and the stamp of a dependency, or minus the
/// refusal's number: -3 if one of them is out of its range, -8 if no later stamp is left.
#[unsafe(no_mangle)]
pub extern "C" fn hybrid_stamp(last: u64, reading: u64, dependency: u64) -> i64
    ensures { result ≡ signed_number (stamp_from hybrid_rule last reading dependency) }
{
    signed_stamp::<Hybrid>(last, reading, dependency)
}

/// Writes the listing of a script to the start of the buffer: its length, or -16 with nothing changed if the buffer has
/// not 96 bytes for each line.
#[unsafe(no_mangle)]
pub extern "C" fn price_listing(script: &[u8], buffer: &mut [u8]) -> i64
    ensures value { (result, buffer.new) ≡ with_signed_number (listing_into script.now buffer.old) }
    ensures law { (len : ℕ) → result ≡ pos len → IsListing script.now (take len buffer.new) }
{
    match list_into(script, buffer) {
        Ok(len) => len as i64,
        Err(why) => -i64::from(why.number()),
    }
}
