//! The words behind a command's name, each as the user writes it.

pub(crate) const FILE: &str = "FILE";

pub(crate) const MODEL: &str = "MODEL";

pub(crate) const WIDTH: &str = "WIDTH";

pub(crate) const HEIGHT: &str = "HEIGHT";

pub(crate) const SYMMETRY: &str = "symmetry";

pub(crate) const SEED: &str = "seed";

pub(crate) const BUDGET: &str = "budget";

pub(crate) const RULE: &str = "rule";

pub(crate) const FORM: &str = "form";

pub(crate) const NUMBER: &str = "NUMBER";

pub(crate) const FORMAT: &str = "format";

pub(crate) const MASK: &str = "mask";

pub(crate) const SEEDS: &str = "seeds";

pub(crate) const QUANTUM: &str = "quantum";

pub(crate) const BLOCK: &str = "block";

pub(crate) const DEPTH: &str = "DEPTH";

pub(crate) const WRAP_IN: &str = "wrap-in";

pub(crate) const WRAP_OUT: &str = "wrap-out";

pub(crate) const PINS: &str = "pins";

pub(crate) const STEPS: &str = "steps";

pub(crate) const REFUTATION: &str = "REFUTATION";
