//! The numbers that definitions take from constants.

ghost use Rattle.std.specs.Prelude.{◌≡◌};
ghost use Rattle.ason_base.specs.{Codes.{busy_code, down_code, fibre_down_code, fibre_up_code, full_code, label_code, primary_code, route_code, set_code, torn_code}, declared.codes.TheConstants.{BUSY, DOWN, FIBRE_DOWN, FIBRE_UP, FULL, LABEL, PRIMARY, ROUTE, SET, TORN}, declared.limits.TheConstants.{MOST_AHEAD, MOST_CALLS, MOST_EVENTS, MOST_FRAMES, MOST_LABELS, MOST_LINKS, MOST_METRIC, MOST_NODES, MOST_SRLGS, MOST_STEPS, MOST_TURNS, MOST_WORKERS}};

/// Law: what each limit is.
pub fn limits()
    ensures nodes { MOST_NODES ≡ 64 }
    ensures links { MOST_LINKS ≡ 256 }
    ensures srlgs { MOST_SRLGS ≡ 16 }
    ensures labels { MOST_LABELS ≡ 80 }
    ensures metric { MOST_METRIC ≡ 65535 }
    ensures steps { MOST_STEPS ≡ 64 }
    ensures events { MOST_EVENTS ≡ 50000 }
    ensures frames { MOST_FRAMES ≡ 256 }
    ensures ahead { MOST_AHEAD ≡ 65535 }
    ensures calls { MOST_CALLS ≡ 4096 }
    ensures workers { MOST_WORKERS ≡ 16 }
    ensures turns { MOST_TURNS ≡ 64 }
{}

/// Law: the error codes are those of their names.
pub fn codes()
    ensures busy { BUSY ≡ busy_code }
    ensures full { FULL ≡ full_code }
    ensures down { DOWN ≡ down_code }
    ensures torn { TORN ≡ torn_code }
    ensures label { LABEL ≡ label_code }
    ensures set { SET ≡ set_code }
    ensures route { ROUTE ≡ route_code }
    ensures primary { PRIMARY ≡ primary_code }
    ensures fibre_down { FIBRE_DOWN ≡ fibre_down_code }
    ensures fibre_up { FIBRE_UP ≡ fibre_up_code }
{}
