// The static library of `host`: its call under the name and by the calling convention that a C host links.
// Kept: a wrapper, since the C name and calling convention stand here alone, and docs/CONTRACTS.md names the call of `host`.
#![tactic(auto)]

ghost use Rattle.std.specs.Prelude.{◌≡◌};
ghost use Rattle.host.specs.Host.{host_number, host_outcome, host_out};

// Judges and decides: document 01's number, and the obligations in out.
#[unsafe(no_mangle)]
pub extern "C" fn bachumoi_decide(book: &[u8], request: &[u8], out: &mut [u8]) -> u64
    ensures { (result ≡ host_number (host_outcome book.now request.now out.old))
        × (out.new ≡ host_out book.now request.now out.old) }
{
    host::bachumoi_decide(book, request, out)
}
