// The engine for programs in other languages: a model as its file or its 17,843 bytes, a configuration as 2,992 bytes, numbers low byte first.
// Nothing is assumed of the bytes. A call that is refused changes no byte of any buffer. Refusals are numbers here, as C takes them.
#![tactic(auto)]

ghost use Rattle.std.specs.Prelude.{◌≡◌, ◌≢◌, not, [], ◌∷◌, eqb, is_err, IfOk, IfErr};
ghost use Rattle.model.specs.Valid.{valid};
ghost use Rattle.engine.specs.pools.Sizes.{most_entries};
ghost use Rattle.engine.specs.configs.Shares.{share_of};
ghost use Rattle.engine.specs.commands.Rules.{first_number};
ghost use Rattle.engine.specs.Tapes.{commands, config_after};
ghost use Rattle.exported.specs.Bytes.{config_from, is_config};
ghost use Rattle.exported.specs.Calls.{model_in, load_refusals, load_room, write_number, write_room, fresh_refusals, fresh_room, step_refusals, step_room, step_values, run_refusals, run_room, run_lines, walk_refusals, walk_room, share_number};

mod bytes;
mod config_bytes;
mod model_bytes;
mod model_from;

use engine::{Config, NotAsked};
use model::{Loaded, Model, Unwritten};

// Loads a file: the refusal and 256 times the block. The model goes to the buffer.
#[unsafe(no_mangle)]
pub extern "C" fn zs_load(file: &[u8], room: &mut [u8]) -> u16
    ensures result { result ≡ first_number (load_refusals file.now room.old) }
    ensures room { room.new ≡ load_room file.now room.old }
{
    let loaded = model::load(file);
    let verdict = loaded.verdict;
    let number = model::refusal(verdict) as u16 + 256 * (model::place(verdict) as u16);
    if number != 0 {
        return number;
    }
    if room.len() < model_bytes::MODEL {
        return 6;
    }
    model_bytes::put_model(&loaded.model, room);
    0
}

// Writes a model that comes as its bytes: the refusal, or 256 times the length of its file. The file goes to the buffer.
#[unsafe(no_mangle)]
pub extern "C" fn zs_write(model: &[u8], room: &mut [u8]) -> u32
    ensures result { result ≡ write_number model.now room.old }
    ensures room { room.new ≡ write_room model.now room.old }
{
    if !model_from::is_model(model) {
        return 8;
    }
    match model::write(model_from::model_from(model), room) {
        Ok(length) => 256 * (length as u32),
        Err(Unwritten::NotValid) => 8,
        Err(Unwritten::TooShort) => 6,
    }
}

// The fresh start: the refusal. The configuration goes to the buffer.
#[tactic(auto, using(crate::proofs::CallLaws::short_number, crate::proofs::CallLaws::short_stays))]
#[unsafe(no_mangle)]
pub extern "C" fn zs_fresh(file: &[u8], config: &mut [u8]) -> u8
    ensures result { result ≡ first_number (fresh_refusals file.now config.old) }
    ensures config { config.new ≡ fresh_room file.now config.old }
{
    let loaded = model::load(file);
    if loaded.verdict.is_err() {
        return 8;
    }
    if config.len() < config_bytes::CONFIG {
        return 6;
    }
    let start = engine::fresh(loaded.model);
    config_bytes::put_config(&start.config, config);
    0
}

// A call goes on with the model that was loaded and the configuration in some bytes. Or the number of C's interface: 8 where the file
// was refused, 9 where the command has no such code, 10 where the bytes are no configuration.
fn ready(loaded: &Loaded, code: bool, config: &[u8]) -> Result<(), u8>
    ensures ok { IfOk result (λ done. first_number ((is_err loaded.now.verdict, 8) ∷ (not code, 9) ∷ (not (is_config config.now), 10) ∷ []) ≡ 0) }
    ensures err { IfErr result (λ n. (n ≡ first_number ((is_err loaded.now.verdict, 8) ∷ (not code, 9) ∷ (not (is_config config.now), 10) ∷ [])) × (n ≢ 0)) }
{
    if loaded.verdict.is_err() {
        return Err(8);
    }
    if !code {
        return Err(9);
    }
    if !config_bytes::is_config(config) {
        return Err(10);
    }
    Ok(())
}

// 10 where the step says so; 6 where there is no room for the values; else what the step says.
fn last_refusal(number: u8, short: bool) -> u8
    ensures { result ≡ first_number ((eqb number 10, 10) ∷ (short, 6) ∷ (not (eqb number 0), number) ∷ []) }
{
    if number == 10 {
        return 10;
    }
    if short {
        return 6;
    }
    number
}

// A step by a coded command: the refusal. The configuration after it goes to its buffer, the masks and the count to theirs.
#[unsafe(no_mangle)]
pub extern "C" fn zs_step(file: &[u8], config: &mut [u8], command: &[u8], values: &mut [u8]) -> u8
    ensures result { result ≡ first_number (step_refusals file.now config.old command.now values.old) }
    ensures config { config.new ≡ step_room file.now config.old command.now values.old }
    ensures values { values.new ≡ step_values file.now config.old command.now values.old }
{
    let code = sets::is_within(1, sets::byte(command, 0), 8);
    let loaded = model::load(file);
    if let Err(number) = ready(&loaded, code, config) {
        return number;
    }
    let c = config_bytes::config_from(config);
    let done = engine::step_coded(loaded.model, c, bytes::eight_of(command));
    let number = last_refusal(engine::refusal(done.answer), values.len() < 9);
    if number != 0 {
        return number;
    }
    config_bytes::put_config(&done.config, config);
    config_bytes::put_values(done.answer, values);
    0
}

// A whole tape: the refusal. The last configuration goes to its buffer, four numbers for each command to theirs.
#[unsafe(no_mangle)]
pub extern "C" fn zs_run(file: &[u8], config: &mut [u8], tape: &[u8], lines: &mut [u32]) -> u8
    ensures result { result ≡ first_number (run_refusals file.now config.old tape.now lines.old) }
    ensures config { config.new ≡ run_room file.now config.old tape.now lines.old }
    ensures lines { lines.new ≡ run_lines file.now config.old tape.now lines.old }
{
    let loaded = model::load(file);
    if let Err(number) = ready(&loaded, true, config) {
        return number;
    }
    let c = config_bytes::config_from(config);
    let done = engine::run(loaded.model, c, tape, lines);
    let number = engine::refusal(done.answer);
    if number != 0 {
        return number;
    }
    config_bytes::put_config(&done.config, config);
    0
}

// The configuration after the commands of a tape, a step for each. A step that is refused changes nothing.
fn walk(m: Model, c: Config, tape: &[u8]) -> Config
    ensures { result ≡ config_after m c tape.now (commands tape.now) }
{
    let mut latest = c;
    for i in 0..tape.len() / 8 {
        latest = engine::step_coded(m, latest, bytes::eight_of(sets::rest(tape, 8 * i))).config;
    }
    latest
}

// The commands of a tape by a step each: the refusal. The last configuration goes to the buffer.
#[unsafe(no_mangle)]
pub extern "C" fn zs_walk(file: &[u8], config: &mut [u8], tape: &[u8]) -> u8
    ensures result { result ≡ first_number (walk_refusals file.now config.old) }
    ensures config { config.new ≡ walk_room file.now config.old tape.now }
{
    let loaded = model::load(file);
    if let Err(number) = ready(&loaded, true, config) {
        return number;
    }
    let c = config_bytes::config_from(config);
    if !engine::is_valid(loaded.model, c) {
        return 10;
    }
    config_bytes::put_config(&walk(loaded.model, c, tape), config);
    0
}

// Whether the owner's pool is shared out: 1 for yes, 0 for no, or the refusal.
#[unsafe(no_mangle)]
pub extern "C" fn zs_shared(file: &[u8], owner: u8) -> u8
    ensures { result ≡ share_number (share_of most_entries (model_in file.now) owner) }
{
    match engine::shared_out(model::load(file).model, owner) {
        Ok(true) => 1,
        Ok(false) => 0,
        Err(NotAsked::ModelNotValid) => 8,
        Err(NotAsked::NoSubject) => 11,
    }
}
