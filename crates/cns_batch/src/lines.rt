ghost use Rattle.std.specs.Prelude.{◌+◌, ◌<◌, length};

/// The commands of a script that are left to run, and the number of the next line.
#[derive(Drop)]
pub(crate) struct Commands<'a> {
    pub(crate) rest: &'a [u8],
    pub(crate) number: u64,
    ghost numbers: { number + length rest.now < 18446744073709551616 },
}
