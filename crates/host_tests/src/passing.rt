//! A function over any host, and what it leaves in memory that is lent to it through a host.
ghost use Rattle.std.specs.Prelude.{◌≡◌, ◌+◌, length};
ghost use Rattle.host.specs.Meaning.{put_answer, Stays};
ghost use Rattle.host.specs.Memory.{over};
ghost use Rattle.host.specs.Tapes.{tape_meaning, tape_of, values_of, TapeSince};
ghost use Rattle.host_tests.specs.Passing.{passed, passed_times, list_passed, tape_passed};

use host::lists::ListHost;
use host::tapes::TapeHost;
use host::{Host, PutRefusal};

/// Takes one value and puts it, or puts 0 where none waits.
pub fn pass_one<H: Host>(host: &mut H) -> Result<(), PutRefusal>
    ensures answer { result ≡ put_answer (H.Host.meaning host.old) }
    ensures after { H.Host.meaning host.new ≡ passed (H.Host.meaning host.old) }
    ensures stays { Stays H.Host.since host.old host.new }
{
    let value = host.take().unwrap_or(0);
    host.put(value)
}

/// Does that so many times, whether the values are accepted or not.
pub fn pass_many<H: Host>(host: &mut H, times: u32)
    ensures after { H.Host.meaning host.new ≡ passed_times times (H.Host.meaning host.old) }
    ensures stays { Stays H.Host.since host.old host.new }
{
    for _i in 0..times {
        let _ = pass_one(host);
    }
}

/// Passes values from list to list, and says how many it took.
pub fn pass_listed<'a>(source: &'a [i32], sink: &'a mut [i32], times: u32) -> usize
    ensures count { result + length (list_passed times source.now sink.old).waiting ≡ length source.now }
    ensures holds { sink.new ≡ over (list_passed times source.now sink.old).written sink.old }
{
    let mut host = ListHost::new(source, sink);
    pass_many(&mut host, times);
    host.taken()
}

/// Passes values from tape to tape, and says how many it took.
// Apart from `pass_listed`: what a lender gets back is another definition for each.
pub fn pass_taped<'a>(source: &'a [u8], sink: &'a mut [u8], times: u32) -> usize
    ensures count { result + length (tape_passed times source.now sink.old).waiting ≡ length (values_of source.now) }
    ensures holds { sink.new ≡ over (tape_of (tape_passed times source.now sink.old).written) sink.old }
{
    let mut host = TapeHost::new(source, sink);
    pass_many(&mut host, times);
    host.taken()
}

/// Passes values on a tape host that is in use already.
pub fn pass_on(host: &mut TapeHost, times: u32)
    ensures after { tape_meaning host.new ≡ passed_times times (tape_meaning host.old) }
    ensures stays { TapeSince host.old host.new }
{
    pass_many(host, times);
}
