//! The listing for the billing host, a C program: `include/nookplover.h` declares it.
#![tactic(auto)]

ghost use Rattle.std.specs.Prelude.{◌≡◌, ◌≤◌, length, IfOk};
ghost use Rattle.billing.specs.Host.{answered, host_answer, host_memory, host_output};

use archive::bytes::ByteArchive;
use archive::intake::take_in;
use archive::listing::list;
use refusals::Refusal;

// What the host is told: the listing's length, or the number of the refusal with a minus.
fn told(answer: Result<usize, Refusal>) -> i64
    requires { IfOk answer (λ n. n ≤ 720) }
    ensures { result ≡ answered answer }
{
    match answer {
        Ok(length) => length as i64,
        Err(refusal) => -i64::from(refusal.cause.number()),
    }
}

fn take_and_list(
    day: u32,
    hour: u32,
    rows: &[u8],
    memory: &mut [u8],
    output: &mut [u8],
) -> Result<usize, Refusal>
    ensures answer { answered result ≡ host_answer day hour rows.now (length memory.old) (length output.old) }
    ensures short { IfOk result (λ n. n ≤ 720) }
    ensures memory { memory.new ≡ host_memory rows.now memory.old }
    ensures output { output.new ≡ host_output day hour rows.now (length memory.old) output.old }
{
    let mut archive = ByteArchive::new(memory);
    take_in(&mut archive, rows)?;
    list(&archive, day, hour, output)
}

/// Takes the row bytes into an empty byte archive in the host's memory, and lists a day and hour of them into the
/// output: the text's length, or a refusal's number with a minus. Rows that were taken in stay in the memory.
#[unsafe(no_mangle)]
pub extern "C" fn nookplover_list(
    day: u32,
    hour: u32,
    rows: &[u8],
    memory: &mut [u8],
    output: &mut [u8],
) -> i64
    ensures answer { result ≡ host_answer day hour rows.now (length memory.old) (length output.old) }
    ensures memory { memory.new ≡ host_memory rows.now memory.old }
    ensures output { output.new ≡ host_output day hour rows.now (length memory.old) output.old }
{
    told(take_and_list(day, hour, rows, memory, output))
}
