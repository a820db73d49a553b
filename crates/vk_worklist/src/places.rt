//! Where the entry of a port stands in a map, so that its name is looked up once.
ghost use Rattle.std.specs.Prelude.{◌≡◌, ◌<◌, ℕ, List, IfSome, IfNone, Some, None};
ghost use Rattle.std.specs.Prelude.{bytes_eq, length};
ghost use Rattle.std.specs.Map.{keys_of, lookup};
ghost use Rattle.vk_worklist.specs.Places.{IsPlace, IsSeat};

use indexmap::IndexMap;
use vk_base::PortName;

/// The place of a port's entry, counted from 0; `None` exactly where there is none.
pub fn place_of<V>(map: &IndexMap<PortName, V>, port: &PortName) -> Option<usize>
    ensures found { IfSome result (IsPlace map.now.entries port.now) }
    ensures within { IfSome result (λ place. place < length map.now.entries) }
    ensures seat { IfSome result (IsSeat (keys_of map.now.entries) port.now) }
    ensures none { IfNone result (lookup (bytes_eq port.now) map.now.entries ≡ None) }
{
    match map.get_full(port) {
        Some((place, _, _)) => Some(place),
        None => None,
    }
}

/// The value at a place.
pub fn value_at<V>(map: &IndexMap<PortName, V>, place: usize) -> &V
    requires { place < length map.now.entries }
    ensures { (port : List ℕ) → IsPlace map.now.entries port place
        → lookup (bytes_eq port) map.now.entries ≡ Some result.now }
{
    map.get_index(place).unwrap().1
}
