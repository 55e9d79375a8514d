//! What the types of a subscription's names keep.

ghost use Rattle.std.specs.List.{AllByRecursion};
ghost use Rattle.std.specs.Prelude.{◌≡◌, Some};
ghost use Rattle.std.specs.Str.{IsUtf8};
ghost use Rattle.wef_base.specs.Names.{subscription_name};
ghost use Rattle.wef_documents.specs.Laws.{HasKeptNames};
ghost use Rattle.wef_eventing.specs.Kept.{HasKeptName};

use wef_base::SubId;
use wef_eventing::Subscription;
use wef_query::QueryItem;

/// The names in a subscription read back as themselves, since their types keep it.
pub(crate) fn names_are_kept(subscription: &Subscription)
    ensures { HasKeptNames subscription.now }
{
    sub_name_is_kept(&subscription.name);
    queried_names_are_kept(subscription.query.items.as_slice());
}

fn sub_name_is_kept(name: &SubId)
    ensures utf8 { IsUtf8 name.now }
    ensures reads_back { subscription_name name.now ≡ Some name.now }
{
    let _name = name.as_text().as_str();
}

fn queried_names_are_kept(items: &[QueryItem])
    ensures { AllByRecursion HasKeptName items.now }
{
    for item in items {
        let _name = item.channel.as_text().as_str();
    }
}
