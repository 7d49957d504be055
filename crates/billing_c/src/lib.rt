//! What a C host links: the listing of `billing` under its exported name, as `include/nookplover.h` declares it.
#![tactic(auto)]

ghost use Rattle.std.specs.Prelude.{◌≡◌, length};
ghost use Rattle.billing.specs.Host.{host_answer, host_memory, host_output};

/// The listing of `billing`, with its clauses. It stands here again since a crate is a library or a static library, not both.
#[unsafe(no_mangle)]
pub extern "C" fn nookplover_list(
    day: u32,
    hour: u32,
    rows: &[u8],
    memory: &mut [u8],
    output: &mut [u8],
) -> i64
    ensures answer { result ≡ host_answer day hour rows.now (length memory.old) (length output.old) }
    ensures memory { memory.new ≡ host_memory rows.now memory.old }
    ensures output { output.new ≡ host_output day hour rows.now (length memory.old) output.old }
{
    billing::nookplover_list(day, hour, rows, memory, output)
}
