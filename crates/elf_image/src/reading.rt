ghost use Rattle.std.specs.Prelude.{◌≡◌, ◌≤◌, ◌⊎◌, length, map, IfOk, IfErr, Ok, Err};
ghost use Rattle.std.specs.List.Sorted.{IsPermutation};
ghost use Rattle.elf_spec.specs.Image.{image_of, segment_of, executable_headers};

use crate::Image;
use crate::elf_file::ElfFile;
use elf_spec::ElfFault;
use std::alloc::Global;

/// The executable that a file is, or the answer of the first test that it fails. The file has at most 16,777,216 bytes.
/// Only a file that passes all tests takes memory.
pub fn read(alloc: Global, bytes: Vec<u8>) -> Result<Image, ElfFault>
    requires { length bytes.items ≤ 16777216 }
    ensures image { IfOk result (λ image. image_of bytes.items ≡ Ok image) }
    ensures fault { IfErr result (λ fault. (image_of bytes.items ≡ Err fault) ⊎ (fault ≡ ElfFault.OutOfMemory)) }
    ensures refused { IfErr (image_of bytes.items) (λ fault. result ≡ Err fault) }
    ensures segments { IfOk result (λ image. IsPermutation (map segment_of (executable_headers bytes.items)) image.segments) }
{
    let file = ElfFile::new(&bytes);
    file.check_identity()?;
    file.check_machine()?;
    file.check_table()?;
    file.check_segments()?;
    let entry = file.entry();
    let Ok(segments) = file.segments(alloc) else {
        return Err(ElfFault::OutOfMemory);
    };
    Ok(Image {
        file: bytes,
        segments,
        entry,
    })
}
