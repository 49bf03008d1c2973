//! The texts of example charts, for tests. Each is also a file of `charts/`, with the same name.
#![tactic(auto)]

/// A chart without instances.
pub const EMPTY: &[u8] = b"msc t; endmsc;";

/// One message between two instances.
pub const ONE_MESSAGE: &[u8] = b"msc t; instance a; out m to b; endinstance; \
instance b; in m from a; endinstance; endmsc;";

/// Two instances each send a message to a third.
pub const TWO_SENDERS: &[u8] = b"msc t; instance a; out m1 to b; endinstance; \
instance b; in m1 from a; in m2 from c; endinstance; instance c; out m2 to b; endinstance; endmsc;";

/// `two_senders` with both inputs in a coregion.
pub const COREGION: &[u8] = b"msc t; instance a; out m1 to b; endinstance; \
instance b; concurrent; in m1 from a; in m2 from c; endconcurrent; endinstance; \
instance c; out m2 to b; endinstance; endmsc;";

/// The second message to b is sent on behalf of the sender of the first.
pub const RELAY: &[u8] = b"msc t; instance a; out m1 to b; out x to c; endinstance; \
instance b; in m1 from a; in m2 from c; endinstance; \
instance c; in x from a; out m2 to b; endinstance; endmsc;";

/// Two messages of one queue that are taken in the other order than they are sent.
pub const OVERTAKING: &[u8] = b"msc t; instance a; out m1 to b; out m2 to b; endinstance; \
instance b; in m2 from a; in m1 from a; endinstance; endmsc;";

/// Two instances each send before they take.
pub const CROSSING: &[u8] = b"msc t; instance a; out p to b; in q from b; endinstance; \
instance b; out q to a; in p from a; endinstance; endmsc;";

/// Two messages of one name, distinguished by their message instance names.
pub const NUMBERED: &[u8] = b"msc t; instance a; out m, 1 to b; out m, 2 to b; endinstance; \
instance b; in m, 1 from a; in m, 2 from a; endinstance; endmsc;";

/// Two races such that no run of mailboxes reverses both.
pub const TWO_MAILBOXES: &[u8] = b"msc t; instance a; out m1 to q; out m3 to z; endinstance; \
instance b; out m4 to z; out m2 to q; endinstance; \
instance q; in m1 from a; in m2 from b; endinstance; \
instance z; in m4 from b; in m3 from a; endinstance; endmsc;";

/// A coregion between two inputs of its line.
pub const BELOW_COREGION: &[u8] = b"msc t; instance a; out m1 to b; endinstance; \
instance b; in m1 from a; concurrent; in m2 from c; in m3 from c; endconcurrent; in m4 from d; \
endinstance; instance c; out m2 to b; out m3 to b; endinstance; \
instance d; out m4 to b; endinstance; endmsc;";

/// Kinds, a comment, a note, a message instance name and parameters.
pub const KINDS_AND_COMMENTS: &[u8] = b"msc t; inst a, b; instance a : process p comment 'it''s'; \
/* note */ out m, 1(x, y) to b; endinstance; instance b; in m, 1(z) from a; endinstance; endmsc;";

/// Each of two instances does something by itself, before it sends or after it has taken.
pub const LOCAL_EVENTS: &[u8] = b"msc t; instance a; action 'go'; out m to b; endinstance; \
instance b; in m from a; action 'done'; endinstance; endmsc;";

/// An action that is drawn before an input, and that does not prevent the message from coming.
pub const WAITS: &[u8] = b"msc t; instance a; out m to b; endinstance; \
instance b; action 'wait'; in m from a; endinstance; endmsc;";

/// Actions whose texts have apostrophes, bytes that are not printed as they are, and nothing.
pub const TEXTS_OF_ACTIONS: &[u8] = b"msc t; instance a; out m to b; endinstance; \
instance b; action 'it''s; /* no note */' comment 'it''s a comment'; \
action 'gr\xc3\xbcn\tund\nrot ~'; action ''; in m from a; endinstance; endmsc;";
