//! How the items of a plan are printed.
ghost use Rattle.std.specs.Prelude.{Some, map};
ghost use Rattle.vk_base.specs.FeatureViews.{feature_view};
ghost use Rattle.vk_resolution.specs.Lines.{item_text};
ghost use Rattle.vk_model.specs.FaultViews.{item_view};
ghost use Rattle.vk_model.specs.Lines.{features_text, more_features_text};

use crate::lines::InstanceTokens;
use crate::plans::Item;
use std::fmt;
use vk_base::{FeatureName, TokenOf};

// Features, each behind a comma.
#[derive(Clone, Copy)]
struct MoreFeatures<'a>(&'a [FeatureName]);

impl fmt::Display for MoreFeatures<'_> {
    ghost output = { λ fs. Some (more_features_text (map feature_view fs.0.now)) };

    fn fmt<W: fmt::Write>(&self, f: &mut fmt::Formatter<W>) -> fmt::Result {
        for feature in self.0 {
            write!(f, ",{}", TokenOf(feature.as_str().as_bytes()))?;
        }
        Ok(())
    }
}

// Features with commas between.
#[derive(Clone, Copy)]
struct Features<'a>(&'a [FeatureName]);

impl fmt::Display for Features<'_> {
    ghost output = { λ fs. Some (features_text (map feature_view fs.0.now)) };

    fn fmt<W: fmt::Write>(&self, f: &mut fmt::Formatter<W>) -> fmt::Result {
        match self.0.split_first() {
            None => Ok(()),
            Some((first, rest)) => {
                let first = TokenOf(first.as_str().as_bytes());
                write!(f, "{first}{}", MoreFeatures(rest))
            }
        }
    }
}

impl fmt::Display for Item {
    ghost output = { λ item. Some (item_text (item_view item)) };

    fn fmt<W: fmt::Write>(&self, f: &mut fmt::Formatter<W>) -> fmt::Result {
        write!(
            f,
            "{} {} {} {}",
            InstanceTokens(&self.inst),
            self.version.ask(),
            self.line,
            Features(self.features.as_slice())
        )
    }
}
