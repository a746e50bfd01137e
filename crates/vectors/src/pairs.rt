// A controller's pair of figures on lines `G`.
use crate::texts::Text;
use crate::{form, settings};
use figures::Figures;

// The pair of figures of a controller of switch 0 that got these bytes.
fn pair_after(bytes: &[u8]) -> Figures {
    let mut controller = controller::power_on(0).controller;
    let mut buf = [0; block::REPLY_ROOM];
    for &b in bytes {
        controller = controller.byte(&mut buf, b).controller;
    }
    figures::figures_of(controller)
}

// The lines P08 and P09 with the two fields' digits.
fn both_lines(line: &[u8]) -> [u8; 18] {
    let mut bytes = *b"P08.....\rP09.....\r";
    // Two fields filled in one pass; an absent character reads as 0 (form::at), so that no slice is taken.
    for i in 0..5 {
        bytes[i + 3] = form::at(line, i + 2);
        bytes[i + 12] = form::at(line, i + 8);
    }
    bytes
}

// `G`: the pair of figures of a controller that got both settings.
pub(crate) fn answer(line: &[u8]) -> Text {
    let pair = pair_after(&both_lines(line));
    let told = settings::with_figure(Text::new(), pair.speed).with(b' ');
    settings::with_figure(told, pair.slope)
}
