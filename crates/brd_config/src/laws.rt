//! What holds of the definitions, whatever the code does.

ghost use Rattle.std.specs.Prelude.{◌≡◌, ◌≢◌, ◌↔◌, ℕ, false, List, [], Ok, Err};
ghost use Rattle.brd_text.specs.Tokens.{tokens_of};
ghost use Rattle.brd_config.specs.declared.fault.ConfigFault.TheVariants.{NoMemory};
ghost use Rattle.brd_config.specs.Configuration.{Configuration};
ghost use Rattle.brd_config.specs.Grammar.{Says};
ghost use Rattle.brd_config.specs.Meaning.{config_of, has_profile, plain_config_of};

/// A text is read as a configuration just where it spells valid statements, and these say that configuration.
pub fn texts_follow_the_grammar()
    ensures exact { (text : List ℕ) (config : Configuration) → (config_of text ≡ Ok config) ↔ Says text config }
{}

/// The reading of every text ends, so that what it says doesn't depend on how many steps are taken.
pub fn reading_ends()
    ensures { (text : List ℕ) → config_of text ≢ Err NoMemory }
{}

/// The profile changes no other text: one that doesn't begin with `PROFILE(STANDARD);` says what it says, or has the
/// fault that it has, where no text asks for the profile. And a kernel has the profile just where its text begins so,
/// and without it no mutex, no memory pool, no mailbox, no cyclic handler and no alarm handler.
pub fn only_the_profile_is_new()
    ensures same { (text : List ℕ) → has_profile (tokens_of text) ≡ false → config_of text ≡ plain_config_of text }
    ensures marked { (text : List ℕ) (config : Configuration) → config_of text ≡ Ok config →
        config.standard ≡ has_profile (tokens_of text) }
    ensures none { (text : List ℕ) (config : Configuration) → config_of text ≡ Ok config → config.standard ≡ false →
        (config.mutexes ≡ []) × (config.pools ≡ []) × (config.mailboxes ≡ []) × (config.cyclics ≡ [])
        × (config.alarms ≡ []) }
{}
