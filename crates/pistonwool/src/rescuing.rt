// Rescuing a damaged record file.
ghost use Rattle.record.specs.Rescue.{lent_of, Rescues};
ghost use Rattle.pistonwool.specs.Told.{two_counted, Keeps};

/// Copies the records that read well, and lists the others.
#[unsafe(no_mangle)]
pub extern "C" fn pw_rescue(
    file: &[u8],
    copy: &mut [u8],
    offsets: &mut [u64],
    numbers: &mut [u64],
    copied: &mut u64,
    listed: &mut u64,
) -> u32
    ensures rescues { Rescues file.now (lent_of copy.old offsets.old numbers.old)
        (two_counted result copied.new listed.new) (lent_of copy.new offsets.new numbers.new) }
    ensures keeps { Keeps result copied.old copied.new × Keeps result listed.old listed.new }
{
    match record::rescue(file, copy, offsets, numbers) {
        Ok(rescued) => {
            *copied = rescued.copied as u64;
            *listed = rescued.listed as u64;
            0
        }
        Err(refusal) => refusal.number(),
    }
}
