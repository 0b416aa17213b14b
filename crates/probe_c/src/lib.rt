// The static library of `probe`: its calls under the names and by the calling convention that the comparisons link.
#![tactic(auto)]

ghost use Rattle.std.specs.Prelude.{◌≡◌, length};
ghost use Rattle.text.specs.Text.{book, request, read_of, write_of, byte_at, text_at, output_after};
ghost use Rattle.text.specs.Wrong.{zeroed};
ghost use Rattle.judge.specs.Judge.{judge_of};
ghost use Rattle.judge.specs.Request.{judge_request_of};
ghost use Rattle.probe.specs.Packed.{packed_of};
ghost use Rattle.probe.specs.Judgements.{book_packed};

#[unsafe(no_mangle)]
pub extern "C" fn probe_read_book(text: &[u8], out: &mut [u8]) -> u64
    ensures { (result ≡ packed_of (read_of book text.now (length out.old))) × (out.new ≡ output_after (byte_at text.now) (read_of book text.now (length out.old)) out.old) }
{
    probe::probe_read_book(text, out)
}

#[unsafe(no_mangle)]
pub extern "C" fn probe_read_request(text: &[u8], out: &mut [u8]) -> u64
    ensures { (result ≡ packed_of (read_of request text.now (length out.old))) × (out.new ≡ output_after (byte_at text.now) (read_of request text.now (length out.old)) out.old) }
{
    probe::probe_read_request(text, out)
}

#[unsafe(no_mangle)]
pub extern "C" fn probe_write_book(records: &[u8], out: &mut [u8]) -> u64
    ensures { (result ≡ packed_of (write_of book records.now (length out.old))) × (out.new ≡ output_after (text_at records.now) (write_of book records.now (length out.old)) out.old) }
{
    probe::probe_write_book(records, out)
}

#[unsafe(no_mangle)]
pub extern "C" fn probe_write_request(records: &[u8], out: &mut [u8]) -> u64
    ensures { (result ≡ packed_of (write_of request records.now (length out.old))) × (out.new ≡ output_after (text_at records.now) (write_of request records.now (length out.old)) out.old) }
{
    probe::probe_write_request(records, out)
}

#[unsafe(no_mangle)]
pub extern "C" fn probe_zero_wrong(text: &mut [u8])
    ensures { text.new ≡ zeroed text.old }
{
    probe::probe_zero_wrong(text);
}

#[unsafe(no_mangle)]
pub extern "C" fn probe_judge_book(book: &[u8]) -> u64
    ensures { result ≡ book_packed (judge_of book.now) }
{
    probe::probe_judge_book(book)
}

#[unsafe(no_mangle)]
pub extern "C" fn probe_judge_request(request: &[u8]) -> u64
    ensures { result ≡ packed_of (judge_request_of request.now) }
{
    probe::probe_judge_request(request)
}
