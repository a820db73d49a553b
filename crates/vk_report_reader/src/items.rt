//! Items of a plan.
ghost use Rattle.std.specs.Prelude.{◌≡◌};
ghost use Rattle.vk_resolution.specs.Lines.{item_text};
ghost use Rattle.vk_resolution.specs.Planning as plain;
ghost use Rattle.vk_model.specs.FaultViews.{item_view};
ghost use Rattle.vk_report_reader.specs.Items.{IsRightItem, item_of, item_parts};

use std::alloc::Global;
use vk_base::{FeatureName, Instance, List, Memory, PortName, TripletName};
use vk_forms::{Features, Form, Number, Port, TextVersion, Then, Triplet};
use vk_model::Item;
use vk_version::Version;

type ItemParts = (PortName, (TripletName, (Version, (u32, List<FeatureName>))));

fn item_of(alloc: Global, parts: ItemParts) -> Item
    ensures { item_view result ≡ item_of (item_parts parts) }
{
    let (port, (triplet, (version, (line, features)))) = parts;
    Item {
        inst: Instance { port, triplet },
        version,
        line,
        features,
        needs: List::new(alloc),
    }
}

/// An item of a plan. What it depends on isn't printed, so it depends on nothing.
#[derive(Drop)]
pub struct AnyItem;

impl Form for AnyItem {
    type Out = Item;

    ghost Plain = { plain.Item };

    ghost plain = { item_view };

    ghost prints = { λ f. item_text };

    ghost is_right = { λ f. IsRightItem };

    fn read(&self, alloc: Global, text: &str) -> Result<Option<Item>, Memory> {
        let version = Then(TextVersion, Then(Number, Features));
        let form = Then(Port, Then(Triplet, version));
        match form.read(alloc, text)? {
            Some(parts) => Ok(Some(item_of(alloc, parts))),
            None => Ok(None),
        }
    }
}
