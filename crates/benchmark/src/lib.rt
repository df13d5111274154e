#![tactic(auto)]
// What the benchmark measures and a host does not call by itself. No call asks anything of its image.
pub mod lookups;
pub mod question;

ghost use Rattle.std.specs.Prelude.{◌≡◌, ◌*◌, ◌≤◌, length};
ghost use Rattle.format.specs.Refusal.{frame_refusal};
ghost use Rattle.benchmark.specs.Answer.{framed_kind, question_of, asked};

use format::units::Offset;
use number::refusal::{number_or_0, refusal_number};

// The lowest of refusals 1 to 7 that applies to the image, or 0.
#[unsafe(no_mangle)]
pub extern "C" fn benchmark_framed(image: &[u8]) -> u64
    ensures { result ≡ frame_refusal image.now }
{
    number_or_0(object::refusal::check_frame(image))
}

// Refusals 1 to 7, and then the object map, in a map that is lent.
fn mapped(image: &[u8], at: u64, map: &mut [u8]) -> u64
    requires { 8388608 ≤ 8 * length map.old }
    ensures { result ≡ framed_kind image.now at }
{
    if let Err(refusal) = object::refusal::check_frame(image) {
        return refusal_number(refusal);
    }
    object::map::chart(image, map);
    8 + (object::map::slot_at(map, Offset(at)) % 16) as u64
}

// Refusals 1 to 7, and then the object map: the refusal, or 8 and the kind's number of the object at `at`.
#[unsafe(no_mangle)]
pub extern "C" fn benchmark_map(image: &[u8], at: u64) -> u64
    ensures { result ≡ framed_kind image.now at }
{
    let mut map = object::map::empty();
    mapped(image, at, &mut map)
}

// Opens the image once, and then asks one question of each argument, a word of eight bytes in `arguments`: the refusal, or the
// answers' numbers added up modulo 2^64, so that none can be left out. `kind` says which question (`question::asked_by`).
#[unsafe(no_mangle)]
pub extern "C" fn benchmark_lookups(
    image: &[u8],
    kind: u64,
    bytes: &[u8],
    place: u64,
    arguments: &[u8],
) -> u64
    ensures { result ≡ asked image.now (question_of kind) bytes.now place arguments.now }
{
    if let Err(refusal) = index::open::open(image) {
        return refusal_number(refusal);
    }
    lookups::answers(image, question::asked_by(kind), bytes, place, arguments)
}
