// The commands: what each refuses and does, and what the eight have in common, by command.
pub(crate) mod codes;
pub(crate) mod deliver;
pub(crate) mod doing;
pub(crate) mod leave;
pub(crate) mod reserve;
pub(crate) mod rules;
pub(crate) mod runs;
pub(crate) mod take;
pub(crate) mod tick;
pub(crate) mod turns;
