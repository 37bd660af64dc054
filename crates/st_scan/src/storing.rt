//! What a scan begins with: the memory, where the inputs have taken over a row.

ghost use Rattle.std.specs.Prelude.{◌≡◌, length, slice_set};
ghost use Rattle.st_scan.specs.Stored.{stored};

/// Puts a value at a place. Beyond the memory nothing is put.
#[inline(always)]
pub fn put(memory: &mut [i64], place: u32, value: i64)
    ensures { memory.new ≡ slice_set memory.old place value }
{
    if (place as usize) < memory.len() {
        memory[place as usize] = value;
    }
}

/// Writes the memory to `work`, where the inputs, which have these places, take over the numbers of the row as far as it goes.
pub fn store(inputs: &[u32], row: &[i64], memory: &[i64], work: &mut [i64])
    requires { length work.old ≡ length memory.now }
    ensures { work.new ≡ stored row.now inputs.now memory.now }
{
    work.copy_from_slice(memory);
    for (k, value) in row.iter().enumerate() {
        if k < inputs.len() {
            put(work, inputs[k], *value);
        }
    }
}
