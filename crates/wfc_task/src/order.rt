//! Laws of the order of refusals, each a function with no body whose contract is the law. They run nothing.

ghost use Rattle.std.specs.Prelude.{List};
ghost use Rattle.wfc_outside.specs.Folder.{File};
ghost use Rattle.wfc_plan.specs.Refusing.{IsMadeInOrder, IsRefusedInOrder};
ghost use Rattle.wfc_task.specs.Posed.{posed_plan};
ghost use Rattle.wfc_task.specs.PosedOrder.{posed_order};
ghost use Rattle.wfc_words.specs.RequestView.{RequestView};

/// The problem of a request has a fault exactly where it is that of the first stage at fault, and is made exactly where all
/// are in order.
pub fn posing_refuses_in_order()
    ensures refused { (asked : RequestView) (files : List File) →
        IsRefusedInOrder (posed_plan asked) files (posed_order asked files) }
    ensures made { (asked : RequestView) (files : List File) →
        IsMadeInOrder (posed_plan asked) files (posed_order asked files) }
{}
