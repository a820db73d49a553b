//! Places that are filled by what is read.
ghost use Rattle.std.specs.Prelude.{◌≡◌, Ok, Err, IfErr, OnOk};

use vk_base::Unread;
use vk_json::FileFault;

// Puts what was read into a place.
pub(crate) fn put<T: Drop>(
    place: &mut T,
    read: Result<T, Unread<FileFault>>,
) -> Result<(), Unread<FileFault>>
    ensures ok { OnOk result (read ≡ Ok place.new) }
    ensures err { IfErr result (λ e. read ≡ Err e) }
{
    *place = read?;
    Ok(())
}
