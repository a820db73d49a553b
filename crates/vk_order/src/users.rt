//! Who needs whom, by places.
ghost use Rattle.std.specs.Prelude.{◌≡◌, ◌<◌, ◌^◌, IfOk, OnOk, length};
ghost use Rattle.std.specs.List.{All};
ghost use Rattle.vk_order.specs.Needs.{ArePlaces, AreUsers, IsPutInto, listed_at, needs_of};

use std::alloc::{AllocError, Global};
use vk_base::List;
use vk_model::Item;

/// What the item at a place needs.
pub(crate) fn needs_at(items: &[Item], place: usize) -> &[u32]
    requires { place < length items.now }
    ensures { result.now ≡ listed_at (needs_of items.now) place }
{
    items[place].needs.as_slice()
}

/// Who needs the item at a place.
pub(crate) fn users_at(users: &[List<u32>], place: usize) -> &[u32]
    requires { place < length users.now }
    ensures { result.now ≡ listed_at users.now place }
{
    users[place].as_slice()
}

// Puts a place into the lists of all that it needs.
fn put_user(users: &mut [List<u32>], place: u32, needs: &[u32]) -> Result<(), AllocError>
    requires { All (λ n. n < length users.old) needs.now }
    ensures { OnOk result (IsPutInto place needs.now users.old users.new) }
{
    for need in needs {
        users[*need as usize].push(place)?;
    }
    Ok(())
}

/// The places of those who need each item.
pub(crate) fn users_of(alloc: Global, items: &[Item]) -> Result<Vec<List<u32>>, AllocError>
    requires small { length items.now < 2 ^ 32 }
    requires places { ArePlaces (needs_of items.now) }
    ensures { IfOk result (λ users. AreUsers (needs_of items.now) users.items) }
{
    let mut users = vec![in alloc; List::new(alloc); items.len()]?;
    for place in 0..items.len() {
        put_user(&mut users, place as u32, needs_at(items, place))?;
    }
    Ok(users)
}
