//! The endpoint programs of the worked sources, and some that no source has.

/// Nobody joins in the other role: it is stuck before its first event.
pub const ALONE: &[u8] = b"endpoints 1;
channel a (A, B);
process p { join a[A](k); send k B 3; end }
";

/// p sends twice before it ends, and q receives both.
pub const TWICE: &[u8] = b"endpoints 1;
channel a (A, B);
process p { join a[A](k); send k B 1; send k B 2; end }
process q { join a[B](k); recv k A x; recv k A y; end }
";

pub const CHOICE: &[u8] = b"endpoints 1;
channel offer (Seller, Buyer);
process s { join offer[Seller](k); send k Buyer 20; branch k Buyer { no { show \"kept\"; end } yes { show \"sold\"; end } } }
process b { join offer[Buyer](k); recv k Seller price; if price <= 25 { pick k Seller yes; end } else { pick k Seller no; end } }
";

pub const COUNTDOWN: &[u8] = b"endpoints 1;
channel count (A, B);
procedure Loop p (k) { if x <= 0 { pick k B done; end } else { pick k B more; send k B x; set x x - 1; call Loop p (k) } }
procedure Loop q (k) { branch k A { done { end } more { recv k A y; call Loop q (k) } } }
process p { join count[A](k); set x 2; call Loop p (k) }
process q { join count[B](k); call Loop q (k) }
";

pub const DELEGATION: &[u8] = b"endpoints 1;
channel sale (Buyer, Seller);
channel hand (From, To);
process b { join sale[Buyer](k); send k Seller 5; end }
process s { join sale[Seller](k); join hand[From](h); give h To k; end }
process c { join hand[To](h); gain h From k; recv k Buyer x; end }
";

pub const HELLO: &[u8] = b"endpoints 1;
channel a (A, B);
process p { join a[A](k); send k B 3; end }
process q { join a[B](k); recv k A x; end }
";

pub const PURCHASE: &[u8] = b"endpoints 1;
channel buy (Buyer, Seller);
channel settle (Shop | Bank);
channel ship (Shop | Depot);
service settle[Bank] { gain settle Shop k; recv k Buyer sum; send k Buyer \"paid\"; send settle Shop sum; end }
service ship[Depot] { recv ship Shop parcel; end }
process b { join buy[Buyer](k); send k Seller \"book\"; recv k Seller price; if price <= 25 { pick k Seller accept; send k Seller price; recv k Seller note; end } else { pick k Seller reject; end } }
process s { join buy[Seller](k); recv k Buyer item; send k Buyer 20; branch k Buyer { accept { join settle[Shop](m); give m Bank k; recv m Bank got; join ship[Shop](h); send h Depot item; end } reject { end } } }
";

pub const SERVICE: &[u8] = b"endpoints 1;
channel d (A | S);
service d[S] { branch d A { down { send d A 2; end } up { send d A 1; end } } }
process p { join d[A](k); pick k S up; recv k S x; end }
process q { join d[A](h); pick h S down; recv h S y; end }
";

/// Two processes that wait for each other: no choreography has this projection. It is stuck after the
/// start.
pub const STUCK: &[u8] = b"endpoints 1;
channel a (A, B);
process p { join a[A](k); recv k B x; end }
process q { join a[B](k); recv k A x; end }
";

pub const TOLD: &[u8] = b"endpoints 1;
channel deal (Buyer, Seller, Depot);
process b { join deal[Buyer](k); recv k Seller price; if price <= 25 { pick k Seller yes; end } else { pick k Seller no; end } }
process s { join deal[Seller](k); send k Buyer 20; branch k Buyer { no { pick k Depot rest; end } yes { pick k Depot pack; end } } }
process d { join deal[Depot](k); branch k Seller { pack { show \"pack\"; end } rest { end } } }
";

/// A label that nobody awaits: it is stuck at the branch.
pub const WRONG_LABEL: &[u8] = b"endpoints 1;
channel offer (Seller, Buyer);
process s { join offer[Seller](k); send k Buyer 20; branch k Buyer { no { show \"kept\"; end } yes { show \"sold\"; end } } }
process b { join offer[Buyer](k); recv k Seller price; pick k Seller maybe; end }
";

/// Those of them that stand in the folder `examples`, by their files.
pub const EXAMPLES: [(&str, &[u8]); 10] = [
    ("alone.endpoints", ALONE),
    ("choice.endpoints", CHOICE),
    ("countdown.endpoints", COUNTDOWN),
    ("delegation.endpoints", DELEGATION),
    ("hello.endpoints", HELLO),
    ("purchase.endpoints", PURCHASE),
    ("service.endpoints", SERVICE),
    ("stuck.endpoints", STUCK),
    ("told.endpoints", TOLD),
    ("wrong_label.endpoints", WRONG_LABEL),
];
