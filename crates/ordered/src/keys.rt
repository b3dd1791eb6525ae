// The keys that tables are made for.
ghost use Rattle.std.specs.Prelude.{nat_lt};
ghost use Rattle.ordered.specs.Orders.{by_name};
ghost use Rattle.ordered.specs.Lexical.{by_name_orders, by_number_orders};

use crate::key::Key;
use crate::name::Name;

impl Key for u32 {
    ghost before = { nat_lt };

    ghost orders = { by_number_orders };
}

impl Key for Name {
    ghost before = { by_name };

    ghost orders = { by_name_orders };
}
