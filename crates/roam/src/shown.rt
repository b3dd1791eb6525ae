// What the program prints of a run.
use blocks::BlockLibrary;
use cli::Shown;
use keyframes::KeyframeStore;
use player::{Answer, Player};
use script::Script;
use std::io;

// The opening, each call with its answer, the playhead and every block's value there.
pub fn show_all<L: BlockLibrary, S: KeyframeStore>(
    rt: &HostRuntime,
    player: &Player<L, S>,
    script: &Script,
    answers: &[Answer],
) -> io::Result<()> {
    let blocks = player.drawing().blocks().len();
    let columns = player.drawing().columns().len();
    let rows = player.rows();
    println!(rt; "opened: {blocks} blocks, {columns} columns, {rows} rows")?;
    for (words, answer) in script.words.iter().zip(answers) {
        println!(rt; "{words}: {answer}")?;
    }
    let playhead = player.playhead();
    println!(rt; "playhead {playhead}")?;
    for (number, block) in player.drawing().blocks().iter().enumerate() {
        if let Ok(value) = player.show(number as u32) {
            let name = block.name();
            let shown = Shown {
                number,
                name,
                value,
            };
            println!(rt; "{shown}")?;
        }
    }
    Ok(())
}
