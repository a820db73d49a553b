//! The rows of a page, by an ask.
ghost use Rattle.std.specs.Prelude.{◌≡◌};
ghost use Rattle.std.specs.Option.{option_copied};
ghost use Rattle.std.specs.List.{find};
ghost use Rattle.vk_spec.specs.Versions.{ask_of, same_ask};
ghost use Rattle.vk_version.specs.AskViews.{ask_view};

use crate::pages::PageRow;
use vk_version::{Ask, Version};

// Whether a version is what an ask means: both have the same text and port-version.
fn is_meant(version: &Version, ask: &Ask) -> bool
    ensures { result ≡ same_ask (ask_of version.now) (ask_view ask.now) }
{
    version.ask() == ask
}

/// The row that an ask means; `None` exactly where there is none. It looks at the rows in order.
pub fn row_for<'a>(rows: &'a [PageRow], ask: &Ask) -> Option<&'a PageRow>
    ensures { option_copied result ≡ find (λ r. same_ask (ask_of r.version) (ask_view ask.now))
        rows.now }
{
    rows.iter().find(|row| is_meant(&row.version, ask))
}
