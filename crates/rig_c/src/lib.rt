// The static library of `rig`: its calls under the names and by the calling convention that a C host links.
// Kept: wrappers, since the C names and calling convention stand here alone, and docs/CONTRACTS.md names the calls of `rig`.
#![tactic(auto)]

ghost use Rattle.std.specs.Prelude.{◌≡◌, length};
ghost use Rattle.translator.specs.Translate.{translate_of, leaves};
ghost use Rattle.rig.specs.Rig.{call, fresh_call, tick_in, tick_call, translated_number};

// Translates a book into lent entries: 256 times their number, or the refusal.
#[unsafe(no_mangle)]
pub extern "C" fn bachumoi_translate(book: &[u8], programme: &mut [u64]) -> u64
    ensures { (result ≡ translated_number (translate_of book.now (length programme.old)))
        × (programme.new ≡ leaves (translate_of book.now (length programme.old)) book.now programme.old) }
{
    rig::bachumoi_translate(book, programme)
}

// Puts the fresh state into lent numbers and places: 0, or the refusal.
#[unsafe(no_mangle)]
pub extern "C" fn bachumoi_fresh(numbers: &mut [u64], places: &mut [u16]) -> u64
    ensures { call result numbers.new places.new ≡ fresh_call numbers.old places.old }
{
    rig::bachumoi_fresh(numbers, places)
}

// Takes one tick of the state in lent numbers and places: its answer as one number. A refusal leaves all that is lent as it was.
#[unsafe(no_mangle)]
pub extern "C" fn bachumoi_tick(
    programme: &[u64],
    request: &[u8],
    numbers: &mut [u64],
    places: &mut [u16],
    budget: u64,
    out: &mut [u16],
) -> u64
    ensures { (call result numbers.new places.new
        ≡ tick_call (tick_in programme.now request.now numbers.old places.old budget out.old).tick numbers.old places.old)
        × (out.new ≡ (tick_in programme.now request.now numbers.old places.old budget out.old).out) }
{
    rig::bachumoi_tick(programme, request, numbers, places, budget, out)
}
