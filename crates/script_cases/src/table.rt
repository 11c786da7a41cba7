//! The numbers of a script, each in a script around it.

/// A number of a script: its name, the text before and behind it, and its range.
pub struct Limit {
    pub name: &'static str,
    pub before: &'static str,
    pub after: &'static str,
    pub low: i64,
    pub high: i64,
}

/// A script up to the members of a send behind its binding.
pub const SEND: &str =
    "{\"version\":1,\"lanes\":1,\"stacks\":[{\"miniport\":{\"kind\":\"ring\",\"address\":\"020000000001\",\"ring\":4,\"pool\":4},\"bindings\":[{\"kind\":\"mux\",\"pool\":4}],\"filters\":[]}],\"calls\":[{\"lane\":0,\"stack\":0,\"call\":\"send\",\"binding\":0,";

pub static LIMITS: [Limit; 16] = [
    Limit {
        name: "version",
        before: "{\"version\":",
        after: ",\"lanes\":1,\"stacks\":[{\"miniport\":{\"kind\":\"ring\",\"address\":\"020000000001\",\"ring\":4,\"pool\":4},\"bindings\":[{\"kind\":\"log\",\"pool\":4}],\"filters\":[]}],\"calls\":[]}",
        low: 1,
        high: 1,
    },
    Limit {
        name: "lanes",
        before: "{\"version\":1,\"lanes\":",
        after: ",\"stacks\":[{\"miniport\":{\"kind\":\"ring\",\"address\":\"020000000001\",\"ring\":4,\"pool\":4},\"bindings\":[{\"kind\":\"log\",\"pool\":4}],\"filters\":[]}],\"calls\":[]}",
        low: 1,
        high: 8,
    },
    Limit {
        name: "ring",
        before: "{\"version\":1,\"lanes\":1,\"stacks\":[{\"miniport\":{\"kind\":\"ring\",\"address\":\"020000000001\",\"ring\":",
        after: ",\"pool\":4},\"bindings\":[{\"kind\":\"log\",\"pool\":4}],\"filters\":[]}],\"calls\":[]}",
        low: 1,
        high: 256,
    },
    Limit {
        name: "miniport pool",
        before: "{\"version\":1,\"lanes\":1,\"stacks\":[{\"miniport\":{\"kind\":\"ring\",\"address\":\"020000000001\",\"ring\":4,\"pool\":",
        after: "},\"bindings\":[{\"kind\":\"log\",\"pool\":4}],\"filters\":[]}],\"calls\":[]}",
        low: 1,
        high: 256,
    },
    Limit {
        name: "binding pool",
        before: "{\"version\":1,\"lanes\":1,\"stacks\":[{\"miniport\":{\"kind\":\"ring\",\"address\":\"020000000001\",\"ring\":4,\"pool\":4},\"bindings\":[{\"kind\":\"log\",\"pool\":",
        after: "}],\"filters\":[]}],\"calls\":[]}",
        low: 1,
        high: 256,
    },
    Limit {
        name: "filter pool",
        before: "{\"version\":1,\"lanes\":1,\"stacks\":[{\"miniport\":{\"kind\":\"ring\",\"address\":\"020000000001\",\"ring\":4,\"pool\":4},\"bindings\":[{\"kind\":\"log\",\"pool\":4}],\"filters\":[{\"kind\":\"pass\",\"handlers\":\"sr\",\"pool\":",
        after: "}]}],\"calls\":[]}",
        low: 1,
        high: 256,
    },
    Limit {
        name: "lower",
        before: "{\"version\":1,\"lanes\":1,\"stacks\":[{\"miniport\":{\"kind\":\"ring\",\"address\":\"020000000001\",\"ring\":4,\"pool\":4},\"bindings\":[{\"kind\":\"mux\",\"pool\":4}],\"filters\":[]},{\"miniport\":{\"kind\":\"virtual\",\"address\":\"020000000002\",\"ring\":4,\"pool\":4,\"lower\":",
        after: ",\"binding\":0,\"vlan\":5},\"bindings\":[{\"kind\":\"log\",\"pool\":4}],\"filters\":[]}],\"calls\":[]}",
        low: 0,
        high: 0,
    },
    Limit {
        name: "binding of a link",
        before: "{\"version\":1,\"lanes\":1,\"stacks\":[{\"miniport\":{\"kind\":\"ring\",\"address\":\"020000000001\",\"ring\":4,\"pool\":4},\"bindings\":[{\"kind\":\"mux\",\"pool\":4}],\"filters\":[]},{\"miniport\":{\"kind\":\"virtual\",\"address\":\"020000000002\",\"ring\":4,\"pool\":4,\"lower\":0,\"binding\":",
        after: ",\"vlan\":5},\"bindings\":[{\"kind\":\"log\",\"pool\":4}],\"filters\":[]}],\"calls\":[]}",
        low: 0,
        high: 0,
    },
    Limit {
        name: "vlan",
        before: "{\"version\":1,\"lanes\":1,\"stacks\":[{\"miniport\":{\"kind\":\"ring\",\"address\":\"020000000001\",\"ring\":4,\"pool\":4},\"bindings\":[{\"kind\":\"mux\",\"pool\":4}],\"filters\":[]},{\"miniport\":{\"kind\":\"virtual\",\"address\":\"020000000002\",\"ring\":4,\"pool\":4,\"lower\":0,\"binding\":0,\"vlan\":",
        after: "},\"bindings\":[{\"kind\":\"log\",\"pool\":4}],\"filters\":[]}],\"calls\":[]}",
        low: 1,
        high: 4094,
    },
    Limit {
        name: "lane",
        before: "{\"version\":1,\"lanes\":1,\"stacks\":[{\"miniport\":{\"kind\":\"ring\",\"address\":\"020000000001\",\"ring\":4,\"pool\":4},\"bindings\":[{\"kind\":\"mux\",\"pool\":4}],\"filters\":[]}],\"calls\":[{\"lane\":",
        after: ",\"call\":\"pump\",\"stack\":0}]}",
        low: 0,
        high: 0,
    },
    Limit {
        name: "stack",
        before: "{\"version\":1,\"lanes\":1,\"stacks\":[{\"miniport\":{\"kind\":\"ring\",\"address\":\"020000000001\",\"ring\":4,\"pool\":4},\"bindings\":[{\"kind\":\"mux\",\"pool\":4}],\"filters\":[]}],\"calls\":[{\"lane\":0,\"call\":\"pump\",\"stack\":",
        after: "}]}",
        low: 0,
        high: 0,
    },
    Limit {
        name: "binding",
        before: "{\"version\":1,\"lanes\":1,\"stacks\":[{\"miniport\":{\"kind\":\"ring\",\"address\":\"020000000001\",\"ring\":4,\"pool\":4},\"bindings\":[{\"kind\":\"mux\",\"pool\":4}],\"filters\":[]}],\"calls\":[{\"lane\":0,\"stack\":0,\"call\":\"send\",\"binding\":",
        after: ",\"frames\":[\"ffffffffffff0200000000010800\"]}]}",
        low: 0,
        high: 0,
    },
    Limit {
        name: "cancel",
        before: "{\"version\":1,\"lanes\":1,\"stacks\":[{\"miniport\":{\"kind\":\"ring\",\"address\":\"020000000001\",\"ring\":4,\"pool\":4},\"bindings\":[{\"kind\":\"mux\",\"pool\":4}],\"filters\":[]}],\"calls\":[{\"lane\":0,\"stack\":0,\"call\":\"send\",\"binding\":0,\"cancel\":",
        after: ",\"frames\":[\"ffffffffffff0200000000010800\"]}]}",
        low: 1,
        high: 4294967295,
    },
    Limit {
        name: "list",
        before: "{\"version\":1,\"lanes\":1,\"stacks\":[{\"miniport\":{\"kind\":\"ring\",\"address\":\"020000000001\",\"ring\":4,\"pool\":4},\"bindings\":[{\"kind\":\"mux\",\"pool\":4}],\"filters\":[]}],\"calls\":[{\"lane\":0,\"stack\":0,\"call\":\"giveback\",\"binding\":0,\"list\":",
        after: "}]}",
        low: 1,
        high: 1152921504606846976,
    },
    Limit {
        name: "id",
        before: "{\"version\":1,\"lanes\":1,\"stacks\":[{\"miniport\":{\"kind\":\"ring\",\"address\":\"020000000001\",\"ring\":4,\"pool\":4},\"bindings\":[{\"kind\":\"mux\",\"pool\":4}],\"filters\":[]}],\"calls\":[{\"lane\":0,\"stack\":0,\"call\":\"cancel\",\"id\":",
        after: "}]}",
        low: 1,
        high: 4294967295,
    },
    Limit {
        name: "position",
        before: "{\"version\":1,\"lanes\":1,\"stacks\":[{\"miniport\":{\"kind\":\"ring\",\"address\":\"020000000001\",\"ring\":4,\"pool\":4},\"bindings\":[{\"kind\":\"mux\",\"pool\":4}],\"filters\":[]}],\"calls\":[{\"lane\":0,\"stack\":0,\"call\":\"insert\",\"position\":",
        after: ",\"filter\":{\"kind\":\"pass\",\"handlers\":\"\",\"pool\":1}}]}",
        low: 0,
        high: 255,
    },
];
