// Records as cells, written from the front of the output.
ghost use Rattle.std.specs.Prelude.{◌<◌};
ghost use Rattle.commands.specs.Records.{bare};
ghost use Rattle.commands.specs.Writing.{Writes};

// A record of a refusal, or of 0, without further cells: how many cells that is, or none where there is no room.
// The refusal is a number, since any crate's is written: `bare` has the reference's numbers.
pub fn put_bare(refusal: u64, out: &mut [u16]) -> Option<usize>
    requires { refusal < 16 }
    ensures { Writes (bare refusal) out.old out.new result }
{
    let first = out.first_mut()?;
    *first = (4096 * refusal) as u16;
    Some(1)
}
