// Values of hourly rows of Sun and Moon, elements made of them, and a cubic judged.
mod from_rows;
mod from_tables;
mod spreadsheet;
